// The supplied rankings.
#![tactic(auto)]

pub mod laws;
pub mod rank_list;
pub mod scores;
