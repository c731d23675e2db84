// Cases for the truncation, over a quota tree, over seat bids and over another truncation, and for the
// depth of a refusal.
use super::steps::Step::{Accepts, No, Refuses, Yes};
use super::steps::{Allows, Step, check, marks};
use parts::numbers::Application;
use parts::part::Part;
use parts::refusal::Cause::{ParentNotSmaller, UnusedKey, ValueAboveLimit};
use parts::refusal::WriteRefusal;
use parts::rule::Rule;
use parts::truncation::Truncation;
use quotas::quota_tree::QuotaTree;
use seats::seat_bids::SeatBids;
use std::test::Fail;

const CAP: [Step<Allows>; 14] = [
    // At first the cap never binds.
    Yes(Allows(&[0, 1, 2], 3)),
    Accepts(0, 1),
    Yes(Allows(&[], 255)),
    No(Allows(&[0], 255)),
    // A marked number that is asked about is one member.
    Yes(Allows(&[7], 7)),
    Refuses(0, 257, ValueAboveLimit, 0, 0),
    Refuses(0, u32::MAX, ValueAboveLimit, 0, 0),
    Yes(Allows(&[], 255)),
    No(Allows(&[0], 255)),
    Accepts(0, 0),
    No(Allows(&[], 0)),
    No(Allows(&[], 255)),
    Accepts(0, 256),
    Yes(Allows(&[0, 1, 2], 3)),
];

// Key k above 0 is key k − 1 of the quota tree.
const BELOW: [Step<Allows>; 20] = [
    Refuses(1, 257, ValueAboveLimit, 1, 0),
    Refuses(129, 0, UnusedKey, 1, 128),
    Refuses(130, 1, ParentNotSmaller, 1, 129),
    Refuses(257, 128, ValueAboveLimit, 1, 256),
    Refuses(512, 128, ValueAboveLimit, 1, 511),
    Refuses(513, 0, UnusedKey, 1, 512),
    Refuses(65_535, 0, UnusedKey, 1, 65_534),
    Yes(Allows(&[0, 1, 2], 3)),
    // The layer takes two, and group 1 below takes one of 0 and 1.
    Accepts(0, 2),
    Accepts(2, 1),
    Accepts(257, 1),
    Accepts(258, 1),
    Yes(Allows(&[0], 2)),
    // Within the cap, and not independent below.
    No(Allows(&[0], 1)),
    // Independent below, and above the cap.
    No(Allows(&[0, 2], 3)),
    Accepts(0, 3),
    Yes(Allows(&[0, 2], 3)),
    No(Allows(&[0], 1)),
    Accepts(1, 2),
    No(Allows(&[0, 2], 3)),
];

// Key 0 is the outer cap, key 1 the inner one, and key k above 1 is key k − 2 of the quota tree.
const TWO_LAYERS: [Step<Allows>; 20] = [
    Refuses(0, 257, ValueAboveLimit, 0, 0),
    Refuses(1, 257, ValueAboveLimit, 1, 0),
    Refuses(2, 257, ValueAboveLimit, 2, 0),
    Refuses(130, 0, UnusedKey, 2, 128),
    Refuses(131, 1, ParentNotSmaller, 2, 129),
    Refuses(65_535, 0, UnusedKey, 2, 65_533),
    Yes(Allows(&[0, 1, 2], 3)),
    // The smallest of the three caps binds.
    Accepts(0, 3),
    Accepts(1, 2),
    Accepts(2, 1),
    Yes(Allows(&[], 0)),
    No(Allows(&[0], 1)),
    Accepts(2, 256),
    Yes(Allows(&[0], 1)),
    No(Allows(&[0, 1], 2)),
    Accepts(1, 256),
    Yes(Allows(&[0, 1], 2)),
    No(Allows(&[0, 1, 2], 3)),
    Accepts(0, 256),
    Yes(Allows(&[0, 1, 2], 3)),
];

// The layer is closed after its copy was made, and the copy then takes a cap and a quota of its own.
const ORIGINAL: [Step<Allows>; 2] = [Accepts(0, 0), No(Allows(&[], 0))];

const COPY: [Step<Allows>; 7] = [
    Yes(Allows(&[], 0)),
    Yes(Allows(&[0], 1)),
    Accepts(0, 1),
    Yes(Allows(&[], 0)),
    No(Allows(&[0], 1)),
    Accepts(1, 0),
    No(Allows(&[], 0)),
];

const REOPENED: [Step<Allows>; 3] = [No(Allows(&[], 0)), Accepts(0, 256), Yes(Allows(&[0], 1))];

#[test]
fn cap(rt: HostRuntime) {
    check(
        &rt,
        "the truncation",
        &mut Truncation::over(QuotaTree::new()),
        &CAP,
    );
}

#[test]
fn over_a_quota_tree(rt: HostRuntime) {
    check(
        &rt,
        "the truncation",
        &mut Truncation::over(QuotaTree::new()),
        &BELOW,
    );
}

#[test]
fn over_another(rt: HostRuntime) {
    let inner = Truncation::over(QuotaTree::new());
    check(
        &rt,
        "the truncation",
        &mut Truncation::over(inner),
        &TWO_LAYERS,
    );
}

// The example of the README.
#[test]
fn over_seat_bids(rt: HostRuntime) -> Result<(), Fail> {
    let mut rule = Truncation::over(SeatBids::new());
    rule.write(0, 2)?;
    rule.write(1, 0b011)?;
    rule.write(2, 0b001)?;
    rule.write(3, 0b100)?;
    assert!(rt; rule.allows(&marks(&[0]), Application::from(1)));
    assert!(rt; rule.below().assignment(&marks(&[0, 1, 2])).is_some());
    assert!(rt; !rule.allows(&marks(&[0, 1]), Application::from(2)));
    Ok(())
}

#[test]
fn copies(rt: HostRuntime) {
    let mut original = Truncation::over(QuotaTree::new());
    let mut copy = original.copied();
    check(&rt, "the original", &mut original, &ORIGINAL);
    check(&rt, "the copy", &mut copy, &COPY);
    check(
        &rt,
        "the original, after writes to the copy",
        &mut original,
        &REOPENED,
    );
}

// A depth is 65,535 at most.
#[test]
fn depths(rt: HostRuntime) {
    let deep = WriteRefusal {
        cause: ParentNotSmaller,
        depth: 65_534,
        key: 129,
    };
    let deepest = WriteRefusal {
        depth: 65_535,
        ..deep
    };
    assert_eq!(rt; deep.from_below(), deepest);
    assert_eq!(rt; deepest.from_below(), deepest);
}
