// Cases for the order by number.
use super::foreign::ByNumber;
use super::steps::Step::{Accepts, No, Refuses, Yes};
use super::steps::{Precedes, Step, check};
use parts::refusal::Cause::{UnusedKey, ValueAboveLimit};

const ORDER: [Step<Precedes>; 21] = [
    // At first the order is rising.
    Yes(Precedes(0, 1)),
    No(Precedes(1, 0)),
    No(Precedes(3, 3)),
    Yes(Precedes(254, 255)),
    Refuses(0, 2, ValueAboveLimit, 0, 0),
    Refuses(1, 1, UnusedKey, 0, 1),
    // The key is tested before the value.
    Refuses(1, 2, UnusedKey, 0, 1),
    Refuses(65_535, u32::MAX, UnusedKey, 0, 65_535),
    Yes(Precedes(0, 1)),
    Accepts(0, 1),
    No(Precedes(0, 1)),
    Yes(Precedes(1, 0)),
    No(Precedes(3, 3)),
    No(Precedes(254, 255)),
    Yes(Precedes(255, 0)),
    Refuses(0, 2, ValueAboveLimit, 0, 0),
    Refuses(1, 0, UnusedKey, 0, 1),
    Yes(Precedes(1, 0)),
    Accepts(0, 0),
    Yes(Precedes(0, 1)),
    No(Precedes(1, 0)),
];

#[test]
fn rises_and_falls(rt: HostRuntime) {
    let mut order = ByNumber::new();
    check(&rt, "the order by number", &mut order, &ORDER);
    assert!(rt; !order.is_falling());
}
