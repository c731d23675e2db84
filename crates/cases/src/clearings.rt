// Clearings with parts of another author on a side, worked out turn by turn from the rule book.
use super::both::GateAndOrder;
use super::foreign::{ByNumber, Gate};
use super::steps::Step::Accepts;
use super::steps::{Allows, Step, check, marks};
use clearing::deferred::clear;
use clearing::side::Side;
use parts::numbers::Application;
use parts::part::{AsRanking, AsRule, Part};
use parts::ranking::Ranking;
use parts::refusal::WriteRefusal;
use parts::rule::Rule;
use parts::truncation::Truncation;
use quotas::quota_tree::QuotaTree;
use rankings::rank_list::RankList;
use rankings::scores::Scores;
use seats::seat_bids::SeatBids;
use std::process::Abort;
use std::test::Fail;

// What comes of a clearing of the live applications.
#[derive(Drop)]
struct Expected {
    live: &'static [u8],
    list: &'static [u8],
    turns: u16,
}

fn check_clearing<R1: Rule, K1: Ranking, R2: Rule, K2: Ranking>(
    rt: &impl Abort,
    one: &Side<R1, K1>,
    two: &Side<R2, K2>,
    expected: &Expected,
) {
    let cleared = clear(one, two, &marks(expected.live));
    assert_eq!(rt; cleared.turns, expected.turns, "turns");
    assert_eq!(rt; cleared.list, marks(expected.list));
}

// A truncation of cap 1 over a quota tree in which no cap binds.
fn one_at_most() -> Result<Truncation<QuotaTree>, WriteRefusal> {
    let mut layer = Truncation::over(QuotaTree::new());
    layer.write(0, 1)?;
    Ok(layer)
}

fn closed_gate() -> Result<Gate, WriteRefusal> {
    let mut gate = Gate::new();
    gate.write(0, 0)?;
    Ok(gate)
}

fn falling() -> Result<ByNumber, WriteRefusal> {
    let mut order = ByNumber::new();
    order.write(0, 1)?;
    Ok(order)
}

// Turn 1: side one offers {0, 1, 2, 3}. Side two takes one and likes 2 best, so it keeps {2} and
// strikes {0, 1, 3}. Turn 2: side one offers {2}, and side two, shown all four, keeps {2} again.
// Nothing new is struck.
#[test]
fn an_open_gate_offers_all(rt: HostRuntime) -> Result<(), Fail> {
    let mut scores = Scores::new();
    scores.write(2, 1001)?;
    let one = Side {
        rule: &Gate::new(),
        ranking: &ByNumber::new(),
    };
    let two = Side {
        rule: &one_at_most()?,
        ranking: &scores,
    };
    let expected = Expected {
        live: &[0, 1, 2, 3],
        list: &[2],
        turns: 2,
    };
    check_clearing(&rt, &one, &two, &expected);
    Ok(())
}

// Turn 1: side one offers nothing, so side two strikes nothing.
#[test]
fn a_closed_gate_offers_nothing(rt: HostRuntime) -> Result<(), Fail> {
    let one = Side {
        rule: &closed_gate()?,
        ranking: &ByNumber::new(),
    };
    let two = Side {
        rule: &QuotaTree::new(),
        ranking: &Scores::new(),
    };
    let expected = Expected {
        live: &[0, 1, 2, 3],
        list: &[],
        turns: 1,
    };
    check_clearing(&rt, &one, &two, &expected);
    Ok(())
}

// Side one offers one at a time: 2, then 1, then 0, and side two strikes each. In turn 4 nothing is
// left to offer, and nothing new is struck. That is a turn more than there are live applications.
#[test]
fn a_closed_gate_rejects_all(rt: HostRuntime) -> Result<(), Fail> {
    let one = Side {
        rule: &one_at_most()?,
        ranking: &falling()?,
    };
    let two = Side {
        rule: &closed_gate()?,
        ranking: &RankList::new(),
    };
    let expected = Expected {
        live: &[0, 1, 2],
        list: &[],
        turns: 4,
    };
    check_clearing(&rt, &one, &two, &expected);
    Ok(())
}

// Turn 1: side one takes one and likes the larger number better, so it offers {3}. The open gate
// keeps it, and nothing is struck.
#[test]
fn the_last_number_is_offered_first(rt: HostRuntime) -> Result<(), Fail> {
    let one = Side {
        rule: &one_at_most()?,
        ranking: &falling()?,
    };
    let two = Side {
        rule: &Gate::new(),
        ranking: &ByNumber::new(),
    };
    let expected = Expected {
        live: &[0, 1, 2, 3],
        list: &[3],
        turns: 1,
    };
    check_clearing(&rt, &one, &two, &expected);
    Ok(())
}

// Applications 0 and 3 are in group 1, which takes one.
const ONE_OF_0_AND_3: [Step<Allows>; 3] = [Accepts(1, 1), Accepts(256, 1), Accepts(259, 1)];

// Application 0 is allowed places 0 and 1, 1 place 0, 2 place 1, and 3 place 2.
const THREE_PLACES: [Step<Allows>; 4] = [
    Accepts(0, 3),
    Accepts(1, 1),
    Accepts(2, 2),
    Accepts(3, 4),
];

// Turn 1: side one offers {0, 1, 2}, since 0 and 3 share a group. Side two takes 2 for place 1 and 1
// for place 0, which leaves no place for 0: it keeps {1, 2} and strikes {0}. Turn 2: side one offers
// {1, 2, 3}. Side two, shown all four, takes 3 for place 2, then 2 and 1 as before, and not 0.
// Nothing new is struck.
#[test]
fn seats_by_the_larger_number(rt: HostRuntime) -> Result<(), Fail> {
    let mut tree = QuotaTree::new();
    check(&rt, "the quota tree", &mut tree, &ONE_OF_0_AND_3);
    let mut bids = SeatBids::new();
    check(&rt, "the seat bids", &mut bids, &THREE_PLACES);
    let one = Side {
        rule: &tree,
        ranking: &RankList::new(),
    };
    let two = Side {
        rule: &bids,
        ranking: &falling()?,
    };
    let expected = Expected {
        live: &[0, 1, 2, 3],
        list: &[1, 2, 3],
        turns: 2,
    };
    check_clearing(&rt, &one, &two, &expected);
    Ok(())
}

// One value is the rule of side one and the ranking of both sides. Its order is made to fall, and its gate
// stays open: side one offers {0, 1, 2}, side two takes one, the last, and strikes {0, 1}; in turn 2 side one
// offers {2}. Then its gate is closed, and its order goes on falling: side one offers nothing.
#[test]
fn one_value_in_both_roles(rt: HostRuntime) -> Result<(), Fail> {
    let mut both = GateAndOrder::new();
    let two = one_at_most()?;
    Part::<AsRanking>::write(&mut both, 0, 1)?;
    check_roles(&rt, &both, &two, &[2], 2);
    Part::<AsRule>::write(&mut both, 0, 0)?;
    check_roles(&rt, &both, &two, &[], 1);
    assert!(rt; both.precedes(Application::from(1), Application::from(0)));
    Ok(())
}

fn check_roles(
    rt: &impl Abort,
    both: &GateAndOrder,
    two: &Truncation<QuotaTree>,
    list: &'static [u8],
    turns: u16,
) {
    let one = Side {
        rule: both,
        ranking: both,
    };
    let two = Side {
        rule: two,
        ranking: both,
    };
    let expected = Expected {
        live: &[0, 1, 2],
        list,
        turns,
    };
    check_clearing(rt, &one, &two, &expected);
}
