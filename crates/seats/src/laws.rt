// What is proved of the seat bids, whatever was written to them. The function stands for a theorem: it
// does nothing, and its contract is what is proved.
ghost use Rattle.seats.specs.Laws.{SeatBidsAreAssignments};

use crate::seat_bids::SeatBids;
use parts::part::{AsRule, Part};
use parts::rule::Rule;

// A set is independent exactly when there is an assignment of different allowed places to its members.
#[tactic(auto, using(matroid::proofs::Assignments::assignable_by_assignment))]
pub fn seat_bids_are_assignments()
    ensures { SeatBidsAreAssignments ⟦<SeatBids as Part<AsRule>>⟧.settings ⟦<SeatBids as Rule>⟧.independent }
{}
