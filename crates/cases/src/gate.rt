// Cases for the gate, alone and below a truncation.
use super::foreign::Gate;
use super::steps::Step::{Accepts, No, Refuses, Yes};
use super::steps::{Allows, Step, check};
use parts::refusal::Cause::{UnusedKey, ValueAboveLimit};
use parts::truncation::Truncation;

const GATE: [Step<Allows>; 17] = [
    // At first the gate is open.
    Yes(Allows(&[], 0)),
    Yes(Allows(&[0, 1], 255)),
    Refuses(0, 2, ValueAboveLimit, 0, 0),
    Refuses(1, 0, UnusedKey, 0, 1),
    // The key is tested before the value.
    Refuses(1, 2, UnusedKey, 0, 1),
    Refuses(65_535, u32::MAX, UnusedKey, 0, 65_535),
    Yes(Allows(&[0, 1], 255)),
    // Closed, it lets no number through, not even one that is marked.
    Accepts(0, 0),
    No(Allows(&[], 0)),
    No(Allows(&[], 255)),
    No(Allows(&[3], 3)),
    Refuses(0, 2, ValueAboveLimit, 0, 0),
    Refuses(0, u32::MAX, ValueAboveLimit, 0, 0),
    Refuses(1, 1, UnusedKey, 0, 1),
    No(Allows(&[], 0)),
    Accepts(0, 1),
    Yes(Allows(&[0, 1], 255)),
];

const CAPPED_GATE: [Step<Allows>; 9] = [
    Accepts(0, 1),
    Yes(Allows(&[], 0)),
    No(Allows(&[0], 1)),
    Refuses(1, 2, ValueAboveLimit, 1, 0),
    Refuses(2, 0, UnusedKey, 1, 1),
    Accepts(1, 0),
    No(Allows(&[], 0)),
    Accepts(1, 1),
    Yes(Allows(&[], 0)),
];

#[test]
fn opens_and_closes(rt: HostRuntime) {
    let mut gate = Gate::new();
    check(&rt, "the gate", &mut gate, &GATE);
    assert!(rt; gate.is_open());
}

#[test]
fn below_a_truncation(rt: HostRuntime) {
    check(
        &rt,
        "the gate",
        &mut Truncation::over(Gate::new()),
        &CAPPED_GATE,
    );
}
