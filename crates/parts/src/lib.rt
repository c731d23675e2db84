// What a part is: the numbers, sets of applications, what every part does, what a rule and what a ranking
// does beside, and refused writes; and the layer that works over any rule.
#![tactic(auto)]

pub mod laws;
pub mod marks;
pub mod numbers;
pub mod part;
pub mod ranking;
pub mod refusal;
pub mod rule;
pub mod truncation;
