// A round and its clearing, in plain words.
use super::rounds::{Parts, Round};
use clearing::deferred::clear;
use itertools::Itertools;
use parts::marks::Marks;
use parts::numbers::{APPLICATIONS, Application, GROUPS, Group};
use std::alloc::{AllocError, Global};

// Clears the round and prints it.
pub(crate) fn show(rt: &HostRuntime, name: &str, round: &Round) -> anyhow::Result<()> {
    let heap = rt.alloc();
    let live = set_text(heap, &round.live)?;
    println!(rt; "Round {name}: {live} are live.")?;
    show_side(rt, "one", &round.one, &round.live)?;
    show_side(rt, "two", &round.two, &round.live)?;
    let cleared = clear(&round.one.side(), &round.two.side(), &round.live);
    let list = set_text(heap, &cleared.list)?;
    let turns = cleared.turns;
    let word = if turns == 1 { "turn" } else { "turns" };
    println!(rt; "  The list is {list}, after {turns} {word}.")?;
    Ok(())
}

// The caps that bind, each with the live applications at home in its group, and the live
// applications from the first to the last.
fn show_side(rt: &HostRuntime, name: &str, side: &Parts, live: &Marks) -> anyhow::Result<()> {
    let heap = rt.alloc();
    for group in (0..GROUPS as u32).filter_map(|number| Group::try_from(number).ok()) {
        let cap = side.quotas.cap(group);
        if usize::from(cap) < APPLICATIONS {
            let homed = set_text(heap, &at_home(side, group, live))?;
            println!(rt; "  Side {name}: group {group} takes at most {cap} of {homed}.")?;
        }
    }
    let ranked = (0..=u8::MAX)
        .map(|rank| side.ranks.holder(rank))
        .filter(|application| live.contains(*application))
        .join(heap, ", ")?;
    println!(rt; "  Side {name} ranks {ranked}.")?;
    Ok(())
}

// The live applications whose home is the group.
fn at_home(side: &Parts, group: Group, live: &Marks) -> Marks {
    Application::all()
        .into_iter()
        .filter(|application| live.contains(*application)
            && side.quotas.home(*application) == group)
        .fold(Marks::none(), |homed, next| homed.with(next))
}

// The marked numbers, rising, as a set.
fn set_text(heap: Global, marks: &Marks) -> Result<String, AllocError> {
    let members = Application::all()
        .into_iter()
        .filter(|application| marks.contains(*application))
        .join(heap, ", ")?;
    format!(in heap; "{{{members}}}")
}
