// A side of a clearing.
use parts::ranking::Ranking;
use parts::rule::Rule;

// What a side can accept, and what it would rather have.
#[derive(Drop)]
pub struct Side<'a, R: Rule, K: Ranking> {
    pub rule: &'a R,
    pub ranking: &'a K,
}
