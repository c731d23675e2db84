// A set of places.
ghost use Rattle.std.specs.Prelude.{◌≡◌, ℕ, ◌<◌, false, MatchOption, nat_eq};
ghost use Rattle.matroid.specs.Sets.{◌∖◌};
ghost use Rattle.parts.specs.Limits.{places};
ghost use Rattle.seats.specs.Places.{bit, common, FirstCommon};

use parts::numbers::Place;

// A set of places, as bits: bit p stands for place p.
#[derive(Clone, Copy, PartialEq, Eq, Debug)]
pub struct Places(u32);

// The places whose bits are set.
impl From<u32> for Places {
    ghost from_gives = { λ bits places. places.0 ≡ bits };

    fn from(bits: u32) -> Places {
        Places(bits)
    }
}

// The bits of the places.
impl From<Places> for u32 {
    ghost from_gives = { λ places bits. bits ≡ places.0 };

    fn from(places: Places) -> u32 {
        places.0
    }
}

impl Places {
    // No place.
    pub const NONE: Places = Places(0);

    // Every place: all the 32 bits.
    pub const ALL: Places = Places(u32::MAX);

    // Whether the place is in the set.
    pub fn contains(self, place: Place) -> bool
        ensures { result ≡ bit self.0 place.number }
    {
        (self.0 >> u8::from(place)) % 2 == 1
    }

    // The places but that one.
    #[tactic(auto, using(crate::proofs::Bits::bit_without))]
    pub fn without(self, place: Place) -> Places
        ensures { bit result.0 ≡ bit self.0 ∖ nat_eq place.number }
    {
        Places(self.0 & !(1 << u8::from(place)))
    }

    // The first place that is in both.
    #[tactic(auto, using(crate::proofs::Bits::none_common, crate::proofs::Bits::first_is_common))]
    pub fn first_common(self, other: Places) -> Option<Place>
        ensures { MatchOption result ((p : ℕ) → p < places → common self.0 other.0 p ≡ false)
            (λ place. FirstCommon self.0 other.0 place.number) }
    {
        Place::try_from((self.0 & other.0).trailing_zeros()).ok()
    }
}
