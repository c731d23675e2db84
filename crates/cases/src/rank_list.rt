// Cases for the rank list.
use super::steps::Step::{Accepts, No, Refuses, Yes};
use super::steps::{Precedes, Step, check};
use parts::numbers::Application;
use parts::part::Part;
use parts::ranking::Ranking;
use parts::refusal::Cause::{UnusedKey, ValueAboveLimit};
use rankings::rank_list::RankList;
use std::test::Fail;

const RANKS: [Step<Precedes>; 40] = [
    // At first the rank is the number.
    Yes(Precedes(0, 1)),
    No(Precedes(1, 0)),
    No(Precedes(7, 7)),
    Yes(Precedes(0, 255)),
    No(Precedes(255, 254)),
    // Application 3 gets rank 0, and application 0 rank 3.
    Accepts(3, 0),
    Yes(Precedes(3, 0)),
    Yes(Precedes(3, 1)),
    No(Precedes(0, 1)),
    Yes(Precedes(2, 0)),
    Yes(Precedes(0, 4)),
    // The key is tested before the value.
    Refuses(3, 256, ValueAboveLimit, 0, 3),
    Refuses(3, u32::MAX, ValueAboveLimit, 0, 3),
    Refuses(256, 0, UnusedKey, 0, 256),
    Refuses(256, 256, UnusedKey, 0, 256),
    Refuses(65_535, 0, UnusedKey, 0, 65_535),
    Yes(Precedes(3, 0)),
    Yes(Precedes(3, 1)),
    Yes(Precedes(2, 0)),
    Yes(Precedes(0, 4)),
    // Application 0 gets rank 255, and application 255 rank 3.
    Accepts(0, 255),
    Yes(Precedes(254, 0)),
    No(Precedes(0, 254)),
    Yes(Precedes(2, 255)),
    Yes(Precedes(255, 4)),
    Refuses(0, 256, ValueAboveLimit, 0, 0),
    Yes(Precedes(254, 0)),
    // Application 255 gets rank 0, and application 3 rank 3.
    Accepts(255, 0),
    Yes(Precedes(255, 3)),
    Yes(Precedes(255, 1)),
    Yes(Precedes(2, 3)),
    Yes(Precedes(3, 4)),
    Refuses(255, 256, ValueAboveLimit, 0, 255),
    Yes(Precedes(255, 1)),
    // Application 1 gets the rank that it has.
    Accepts(1, 1),
    Yes(Precedes(255, 1)),
    Yes(Precedes(1, 2)),
    Yes(Precedes(2, 3)),
    Yes(Precedes(254, 0)),
    No(Precedes(0, 0)),
];

#[test]
fn ranks(rt: HostRuntime) {
    check(&rt, "the rank list", &mut RankList::new(), &RANKS);
}

#[test]
fn an_exchange_from_both_ends(rt: HostRuntime) -> Result<(), Fail> {
    let mut list = RankList::new();
    list.write(3, 0)?;
    let (zero, three) = (Application::from(0), Application::from(3));
    assert_eq!(rt; [list.rank(three), list.rank(zero)], [0, 3]);
    assert_eq!(rt; [list.holder(0), list.holder(3)], [three, zero]);
    Ok(())
}
