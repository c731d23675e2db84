// The seat bids, a rule.
#![tactic(auto)]

pub mod laws;
pub mod places;
pub mod seat_bids;
pub mod seating;
