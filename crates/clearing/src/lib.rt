// Choice and deferred acceptance for any two sides, and why a list is refused.
#![tactic(auto)]

pub mod choice;
pub mod deferred;
mod order;
pub mod refusal;
pub mod side;
