// A seating: who holds each place, and how one application more is let in.
ghost use Rattle.std.specs.Prelude.{◌≡◌, None, MatchOption, slice_index_or};
ghost use Rattle.matroid.specs.Sets.{◌∉◌, add};
ghost use Rattle.seats.specs.Bids.{Unseatable};
ghost use Rattle.seats.specs.Seatings.{seated, Proper};
ghost use Rattle.seats.specs.Vacancies.{LetIn, Searched, Vacant};

use super::places::Places;
use parts::numbers::{APPLICATIONS, Application, PLACES, Place};

// Who holds each place.
#[derive(Clone, Copy)]
pub struct Seats {
    holders: [Option<Application>; PLACES],
}

impl Seats {
    // Nobody holds a place.
    pub(crate) fn empty() -> Seats
        ensures { Vacant result.holders }
    {
        Seats {
            holders: [None; PLACES],
        }
    }

    // Who holds the place.
    pub fn holder(&self, place: Place) -> Option<Application>
        ensures { result ≡ slice_index_or self.now.holders place.number None }
    {
        self.holders[usize::from(place)]
    }
}

// The search for places: who holds each so far, and which have not been tried for the application that
// looks for one. It seats one application after the other in place, since a copy of the holders for each
// takes longer than most searches.
#[derive(Drop)]
pub(crate) struct Search<'a> {
    masks: &'a [Places; APPLICATIONS],
    pub(crate) seats: Seats,
    untried: Places,
}

impl<'a> Search<'a> {
    // Nobody is seated yet.
    pub(crate) fn over(masks: &'a [Places; APPLICATIONS]) -> Search<'a>
        ensures { (result.masks.now ≡ masks.now) × Vacant result.seats.holders }
    {
        Search {
            masks,
            seats: Seats::empty(),
            untried: Places::ALL,
        }
    }

    // Seats the application beside those seated, who move where that makes room; none if there is no
    // way to seat them all.
    #[tactic(auto, using(crate::proofs::Trials::no_room))]
    pub(crate) fn let_in(&mut self, asked: Application) -> Option<()>
        requires { (Proper self.old.masks.now self.old.seats.holders) × (asked.0 ∉ seated self.old.seats.holders) }
        ensures { (self.new.masks.now ≡ self.old.masks.now) × MatchOption result
            ((self.new.seats.holders ≡ self.old.seats.holders) × Unseatable self.old.masks.now (add (seated self.old.seats.holders) asked.0))
            (λ _. LetIn self.old.masks.now self.old.seats.holders self.new.seats.holders asked.0) }
    {
        self.untried = Places::ALL;
        self.seat(asked).then_some(())
    }

    // Gives the application one of the untried places that it is allowed, moving holders to other
    // places where that makes room; false if there is no way. Each place is tried at most once: its
    // holder looks for another, and gets the place back if there is none.
    fn seat(&mut self, asked: Application) -> bool
        requires { (Proper self.old.masks.now self.old.seats.holders) × (asked.0 ∉ seated self.old.seats.holders) }
        ensures { (self.new.masks.now ≡ self.old.masks.now) × Searched self.old.masks.now self.old.seats.holders self.new.seats.holders
            self.old.untried.0 self.new.untried.0 asked.0 result }
    {
        let wanted = self.masks[usize::from(asked)];
        // a `while`, since the calls within try places too, which no iterator would leave out
        while let Some(place) = wanted.first_common(self.untried) {
            self.untried = self.untried.without(place);
            let spot = usize::from(place);
            let former = self.seats.holders[spot].replace(asked);
            let Some(holder) = former else {
                return true;
            };
            if self.seat(holder) {
                return true;
            }
            self.seats.holders[spot] = former;
        }
        false
    }
}
