// Cases for the scores.
use super::steps::Step::{Accepts, No, Refuses, Yes};
use super::steps::{Precedes, Step, check};
use parts::numbers::Application;
use parts::refusal::Cause::{UnusedKey, ValueAboveLimit};
use rankings::scores::Scores;

// Applications 10 to 14 with the scores −1,000, −1, 0, 1 and 1,000.
const FIVE: [Step<Precedes>; 5] = [
    Accepts(10, 0),
    Accepts(11, 999),
    Accepts(12, 1000),
    Accepts(13, 1001),
    Accepts(14, 2000),
];

// Each of the five with each other, and both ways.
const COMPARED: [Step<Precedes>; 20] = [
    Yes(Precedes(14, 13)),
    Yes(Precedes(14, 12)),
    Yes(Precedes(14, 11)),
    Yes(Precedes(14, 10)),
    Yes(Precedes(13, 12)),
    Yes(Precedes(13, 11)),
    Yes(Precedes(13, 10)),
    Yes(Precedes(12, 11)),
    Yes(Precedes(12, 10)),
    Yes(Precedes(11, 10)),
    No(Precedes(10, 11)),
    No(Precedes(10, 12)),
    No(Precedes(10, 13)),
    No(Precedes(10, 14)),
    No(Precedes(11, 12)),
    No(Precedes(11, 13)),
    No(Precedes(11, 14)),
    No(Precedes(12, 13)),
    No(Precedes(12, 14)),
    No(Precedes(13, 14)),
];

const EQUAL: [Step<Precedes>; 22] = [
    // The other applications have the score 0, as application 12 has.
    Yes(Precedes(9, 12)),
    No(Precedes(12, 9)),
    Yes(Precedes(12, 255)),
    No(Precedes(255, 12)),
    No(Precedes(12, 12)),
    // −1,000 three times.
    Accepts(9, 0),
    Accepts(20, 0),
    Yes(Precedes(9, 10)),
    No(Precedes(10, 9)),
    Yes(Precedes(10, 20)),
    No(Precedes(20, 10)),
    No(Precedes(10, 10)),
    // −1 twice, then 1 twice.
    Accepts(21, 999),
    Yes(Precedes(11, 21)),
    No(Precedes(21, 11)),
    Accepts(21, 1001),
    Yes(Precedes(13, 21)),
    No(Precedes(21, 13)),
    Yes(Precedes(21, 12)),
    // 1,000 twice.
    Accepts(22, 2000),
    Yes(Precedes(14, 22)),
    No(Precedes(22, 14)),
];

const LIMITS: [Step<Precedes>; 17] = [
    // At first every score is 0.
    Yes(Precedes(0, 255)),
    No(Precedes(255, 0)),
    No(Precedes(5, 5)),
    Refuses(255, 2001, ValueAboveLimit, 0, 255),
    Refuses(255, u32::MAX, ValueAboveLimit, 0, 255),
    Refuses(256, 2000, UnusedKey, 0, 256),
    // The key is tested before the value.
    Refuses(256, 2001, UnusedKey, 0, 256),
    Refuses(65_535, 2001, UnusedKey, 0, 65_535),
    Yes(Precedes(0, 255)),
    Yes(Precedes(254, 255)),
    Accepts(255, 2000),
    Yes(Precedes(255, 0)),
    Accepts(0, 0),
    Yes(Precedes(254, 0)),
    Refuses(0, 2001, ValueAboveLimit, 0, 0),
    Yes(Precedes(254, 0)),
    Yes(Precedes(255, 254)),
];

#[test]
fn five_scores(rt: HostRuntime) {
    let mut scores = Scores::new();
    check(&rt, "the scores", &mut scores, &FIVE);
    check(&rt, "the scores", &mut scores, &COMPARED);
}

#[test]
fn equal_scores(rt: HostRuntime) {
    let mut scores = Scores::new();
    check(&rt, "the scores", &mut scores, &FIVE);
    check(&rt, "the scores", &mut scores, &EQUAL);
}

#[test]
fn limits(rt: HostRuntime) {
    check(&rt, "the scores", &mut Scores::new(), &LIMITS);
}

#[test]
fn scores_are_read(rt: HostRuntime) {
    let mut scores = Scores::new();
    check(&rt, "the scores", &mut scores, &FIVE);
    let read = [
        scores.score(Application::from(10)),
        scores.score(Application::from(11)),
        scores.score(Application::from(12)),
        scores.score(Application::from(13)),
        scores.score(Application::from(14)),
        scores.score(Application::from(15)),
    ];
    assert_eq!(rt; read, [-1000, -1, 0, 1, 1000, 0]);
}
