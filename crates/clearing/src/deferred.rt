// Deferred acceptance.
ghost use Rattle.std.specs.Prelude.{◌+◌, ◌≤◌};
ghost use Rattle.matroid.specs.Clearings.{Clearing};
ghost use Rattle.matroid.specs.Sets.{card};
ghost use Rattle.matroid.specs.Turns.{Turn, Ends};
ghost use Rattle.parts.specs.Limits.{applications};
ghost use Rattle.parts.specs.Marks.{members};
ghost use Rattle.clearing.specs.Sides.{side_of};

use super::choice::Ordered;
use super::side::Side;
use parts::marks::Marks;
use parts::ranking::Ranking;
use parts::rule::Rule;

// The list on which a clearing ends, and how many turns it took.
#[derive(Clone, Copy, PartialEq, Eq, Debug)]
pub struct Cleared {
    pub list: Marks,
    pub turns: u16,
}

// What side one offered in a turn, and what is struck after it.
#[derive(Clone, Copy)]
struct Turned {
    offered: Marks,
    struck: Marks,
}

// One turn: side one offers its choice of what is not struck, side two keeps its choice of the
// struck and the offered, and what it leaves is struck from now on.
fn turn<R1: Rule, K1: Ranking, R2: Rule, K2: Ranking>(
    one: &Ordered<R1, K1>,
    two: &Ordered<R2, K2>,
    live: &Marks,
    struck: &Marks,
) -> Turned
    ensures { Turn (side_of R1.settings R1.independent K1.settings K1.before one.now.side.now)
        (side_of R2.settings R2.independent K2.settings K2.before two.now.side.now)
        (members live.now) (members struck.now) (members result.offered) (members result.struck) }
{
    let offered = one.choose(&live.difference(struck));
    let shown = struck.union(&offered);
    let kept = two.choose(&shown);
    Turned {
        offered,
        struck: shown.difference(&kept),
    }
}

// Deferred acceptance over the live applications: turns are made until one strikes nothing new,
// and the list is what side one offered in it. No kernel serves side one better than that list.
pub fn clear<R1: Rule, K1: Ranking, R2: Rule, K2: Ranking>(
    one: &Side<R1, K1>,
    two: &Side<R2, K2>,
    live: &Marks,
) -> Cleared
    ensures ends { Ends (side_of R1.settings R1.independent K1.settings K1.before one.now)
        (side_of R2.settings R2.independent K2.settings K2.before two.now)
        (members live.now) result.turns (members result.list) }
    ensures bounded { result.turns ≤ card applications (members live.now) + 1 }
    ensures clearing { Clearing applications (side_of R1.settings R1.independent K1.settings K1.before one.now)
        (side_of R2.settings R2.independent K2.settings K2.before two.now)
        (members live.now) result.turns (members result.list) }
{
    let first = Ordered::of(one);
    let second = Ordered::of(two);
    // a `loop`, since how many turns there are shows only in the last
    let mut struck = Marks::none();
    let mut turns = 1;
    loop {
        let made = turn(&first, &second, live, &struck);
        if made.struck.is_same(&struck) {
            return Cleared {
                list: made.offered,
                turns,
            };
        }
        struck = made.struck;
        turns += 1;
    }
}
