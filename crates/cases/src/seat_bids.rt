// Cases for the seat bids.
use super::steps::Step::{Accepts, No, Refuses, Yes};
use super::steps::{Allows, Step, check, marks};
use parts::marks::Marks;
use parts::numbers::{Application, Place};
use parts::part::Part;
use parts::refusal::Cause::UnusedKey;
use parts::rule::Rule;
use seats::seat_bids::SeatBids;
use std::test::Fail;

// Application 0 is allowed places 0 and 1, application 1 place 0, application 2 place 1.
const TWO_PLACES: [Step<Allows>; 3] = [Accepts(0, 3), Accepts(1, 1), Accepts(2, 2)];

const BIDS: [Step<Allows>; 23] = [
    Yes(Allows(&[], 0)),
    Yes(Allows(&[], 1)),
    Yes(Allows(&[], 2)),
    Yes(Allows(&[0], 1)),
    Yes(Allows(&[1], 0)),
    Yes(Allows(&[0], 2)),
    Yes(Allows(&[2], 1)),
    Yes(Allows(&[0, 1], 1)),
    // Three applications for two places.
    No(Allows(&[0, 1], 2)),
    No(Allows(&[1, 2], 0)),
    No(Allows(&[2, 0], 1)),
    No(Allows(&[0, 1, 2], 2)),
    // Application 12 has place 0 alone, so 10 is left place 1, and 11 place 2.
    Accepts(10, 3),
    Accepts(11, 6),
    Accepts(12, 1),
    Yes(Allows(&[10, 11], 12)),
    Yes(Allows(&[12, 11], 10)),
    // Without place 2 there is none left for 11.
    Accepts(11, 2),
    No(Allows(&[10, 11], 12)),
    Yes(Allows(&[10], 11)),
    // A mask set back to 0 allows no place.
    Accepts(0, 0),
    No(Allows(&[], 0)),
    Yes(Allows(&[1], 2)),
];

const PLACE_31: [Step<Allows>; 6] = [
    Accepts(20, 0x8000_0000),
    Yes(Allows(&[], 20)),
    Accepts(21, 0x8000_0000),
    No(Allows(&[20], 21)),
    Accepts(21, 0xC000_0000),
    Yes(Allows(&[20], 21)),
];

const KEYS: [Step<Allows>; 14] = [
    // At first nothing but the empty set is independent.
    No(Allows(&[], 0)),
    No(Allows(&[], 255)),
    Refuses(256, 0, UnusedKey, 0, 256),
    Refuses(256, 0xFFFF_FFFF, UnusedKey, 0, 256),
    Refuses(65_535, 0xFFFF_FFFF, UnusedKey, 0, 65_535),
    No(Allows(&[], 0)),
    No(Allows(&[], 255)),
    Accepts(0, 0xFFFF_FFFF),
    Yes(Allows(&[], 0)),
    Accepts(255, 0xFFFF_FFFF),
    Yes(Allows(&[0], 255)),
    Refuses(256, 0, UnusedKey, 0, 256),
    Yes(Allows(&[0], 255)),
    No(Allows(&[], 1)),
];

#[test]
fn bids(rt: HostRuntime) {
    let mut bids = SeatBids::new();
    check(&rt, "the seat bids", &mut bids, &TWO_PLACES);
    check(&rt, "the seat bids", &mut bids, &BIDS);
}

#[test]
fn the_last_place(rt: HostRuntime) {
    check(&rt, "the seat bids", &mut SeatBids::new(), &PLACE_31);
}

#[test]
fn keys(rt: HostRuntime) {
    check(&rt, "the seat bids", &mut SeatBids::new(), &KEYS);
}

// Every application is allowed every place: the first 32 get one each, and the next finds none.
#[test]
fn all_places(rt: HostRuntime) -> Result<(), Fail> {
    let mut bids = SeatBids::new();
    let mut marked = Marks::none();
    for number in 0..33 {
        let asked = Application::from(number);
        bids.write(u16::from(number), 0xFFFF_FFFF)?;
        assert_eq!(rt;
            bids.allows(&marked, asked),
            number < 32,
            "application {number}"
        );
        marked.insert(asked);
    }
    Ok(())
}

// Application 1 has place 0 alone, so place 1 is left for application 0.
#[test]
fn the_only_assignment(rt: HostRuntime) -> Result<(), Fail> {
    let mut bids = SeatBids::new();
    check(&rt, "the seat bids", &mut bids, &TWO_PLACES);
    assert!(rt; bids.assignment(&marks(&[0, 1, 2])).is_none());
    let seats = bids.assignment(&marks(&[0, 1])).ok_or("no assignment")?;
    let held = [
        seats.holder(Place::try_from(0)?),
        seats.holder(Place::try_from(1)?),
    ];
    assert_eq!(rt;
        held,
        [Some(Application::from(1)), Some(Application::from(0))]
    );
    Ok(())
}
