// The quota tree, a rule.
#![tactic(auto)]

pub mod laws;
pub mod quota_tree;
