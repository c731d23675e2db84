// Cases for each supplied part, worked out from the rule book, and parts of another author: a rule, a
// ranking, and one type that is both.
#![tactic(auto)]

pub mod both;
#[cfg(test)]
mod by_number;
#[cfg(test)]
mod clearings;
pub mod foreign;
#[cfg(test)]
mod gate;
#[cfg(test)]
mod quota_tree;
#[cfg(test)]
mod rank_list;
#[cfg(test)]
mod scores;
#[cfg(test)]
mod seat_bids;
#[cfg(test)]
mod steps;
#[cfg(test)]
mod truncation;
