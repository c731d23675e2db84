// The seat bids: a rule by which every member of a set needs a place of its own that its mask allows.
ghost use Rattle.std.specs.Prelude.{◌≡◌, MatchOption};
ghost use Rattle.seats.specs.Bids.{first_masks, masks_written, seatable, Unseatable};
ghost use Rattle.seats.specs.Places.{mask_of, allowed};
ghost use Rattle.seats.specs.Seatings.{Seating};
ghost use Rattle.matroid.proofs.Transversals.{transversal_matroid};
ghost use Rattle.parts.specs.Limits.{applications, places};
ghost use Rattle.parts.specs.Marks.{members};
ghost use Rattle.std.proofs.Common.{rules};

use super::places::Places;
use super::seating::{Search, Seats};
use parts::marks::Marks;
use parts::numbers::{APPLICATIONS, Application};
use parts::part::{AsRule, Part};
use parts::refusal::WriteRefusal;
use parts::rule::Rule;

// The places that each application is allowed.
#[derive(Clone, Copy)]
pub struct SeatBids {
    masks: [Places; APPLICATIONS],
}

impl SeatBids {
    // No application is allowed a place.
    pub fn new() -> SeatBids
        ensures { result.masks ≡ first_masks }
    {
        SeatBids {
            masks: [Places::NONE; APPLICATIONS],
        }
    }

    // The places that the application is allowed.
    pub fn mask(&self, application: Application) -> Places
        ensures { result ≡ mask_of self.now.masks application.0 }
    {
        self.masks[usize::from(application)]
    }

    // Different places for the marked applications, each allowed, or none if there is no such
    // assignment. One member after the other is let in, and for each a place is tried at most once:
    // at most members × places tries, each over the 32 bits of a mask.
    pub fn assignment(&self, marked: &Marks) -> Option<Seats>
        ensures { MatchOption result (Unseatable self.now.masks (members marked.now))
            (λ seats. Seating self.now.masks seats.holders (members marked.now)) }
    {
        let mut search = Search::over(&self.masks);
        for &application in &Application::all() {
            if marked.contains(application) {
                search.let_in(application)?;
            }
        }
        Some(search.seats)
    }
}

impl Part<AsRule> for SeatBids {
    // the mask of each application
    type Settings = [Places; APPLICATIONS];

    ghost settings = { λ bids. bids.masks };

    ghost sound = { λ _. Unit {0} };

    ghost written = { masks_written };

    ghost settings_sound = { Prim.search rules };

    ghost written_sound = { Prim.search rules };

    fn write(&mut self, key: u16, value: u32) -> Result<(), WriteRefusal> {
        let named = Application::try_from(key).map_err(|cause| WriteRefusal::here(cause, key))?;
        self.masks[usize::from(named)] = Places::from(value);
        Ok(())
    }

    fn copied(&self) -> SeatBids {
        *self
    }
}

impl Rule for SeatBids {
    ghost independent = { seatable };

    ghost matroid = { λ masks _. transversal_matroid applications places (allowed masks) };

    #[tactic(auto, using(crate::proofs::Seated::found_or_not))]
    fn allows(&self, marked: &Marks, asked: Application) -> bool {
        self.assignment(&marked.with(asked)).is_some()
    }
}
