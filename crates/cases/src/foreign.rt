// Two parts of another author, a rule and a ranking. Nothing but the interfaces ties them to the
// supplied parts. Both are set by one switch; otherwise each is written whole, as one who makes a part
// would write it.
ghost use Rattle.std.specs.Prelude.{◌≡◌, true, false, if◌then◌else◌, Ok, Err, ◌==◌, nat_le};
ghost use Rattle.std.proofs.Common.{rules};
ghost use Rattle.parts.specs.Outcomes.{refusal_here};
ghost use Rattle.parts.specs.declared.refusal.Cause.TheVariants.{UnusedKey, ValueAboveLimit};
ghost use Rattle.cases.specs.Foreign.{let_through, number_before, switched};
ghost use Rattle.cases.specs.Gates.{gate_matroid};

use parts::marks::Marks;
use parts::numbers::Application;
use parts::part::{AsRanking, AsRule, Part};
use parts::ranking::Ranking;
use parts::refusal::{Cause, WriteRefusal};
use parts::rule::Rule;

// The switch that a write sets: key 0 is the only one, and its value is 1 for on or 0 for off. A switch is
// a `bool` of std, which takes no conversion of our own.
fn switch_from(key: u16, value: u32) -> Result<bool, WriteRefusal>
    ensures { result ≡ (if key == 0
        then (if nat_le value 1 then Ok (value == 1) else Err (refusal_here ValueAboveLimit key))
        else Err (refusal_here UnusedKey key)) }
{
    if key != 0 {
        return Err(WriteRefusal::here(Cause::UnusedKey, key));
    }
    if value > 1 {
        return Err(WriteRefusal::here(Cause::ValueAboveLimit, key));
    }
    Ok(value == 1)
}

// A rule that accepts every set while it is open, and none but the empty one while it is closed.
#[derive(Clone, Copy)]
pub struct Gate {
    open: bool,
}

impl Gate {
    // An open gate.
    pub fn new() -> Gate
        ensures { result.«open» ≡ true }
    {
        Gate { open: true }
    }

    // Whether every set is accepted.
    pub fn is_open(&self) -> bool
        ensures { result ≡ self.now.«open» }
    {
        self.open
    }
}

impl Part<AsRule> for Gate {
    // whether the gate is open
    type Settings = bool;

    ghost settings = { λ gate. gate.«open» };

    ghost sound = { λ _. Unit {0} };

    ghost written = { switched };

    ghost settings_sound = { Prim.search rules };

    ghost written_sound = { Prim.search rules };

    fn write(&mut self, key: u16, value: u32) -> Result<(), WriteRefusal> {
        self.open = switch_from(key, value)?;
        Ok(())
    }

    fn copied(&self) -> Gate {
        *self
    }
}

impl Rule for Gate {
    ghost independent = { let_through };

    ghost matroid = { λ lets _. gate_matroid lets };

    // A set with the asked number in it has a member.
    #[tactic(auto, using(crate::proofs::Gates::added_passes))]
    fn allows(&self, _marked: &Marks, _asked: Application) -> bool {
        self.is_open()
    }
}

// A ranking by number alone: rising, with the smaller number first, or falling.
#[derive(Clone, Copy)]
pub struct ByNumber {
    falling: bool,
}

impl ByNumber {
    // The rising order.
    pub fn new() -> ByNumber
        ensures { result.falling ≡ false }
    {
        ByNumber { falling: false }
    }

    // Whether the larger number precedes.
    pub fn is_falling(&self) -> bool
        ensures { result ≡ self.now.falling }
    {
        self.falling
    }
}

impl Part<AsRanking> for ByNumber {
    // whether the order is falling
    type Settings = bool;

    ghost settings = { λ order. order.falling };

    ghost sound = { λ _. Unit {0} };

    ghost written = { switched };

    ghost settings_sound = { Prim.search rules };

    ghost written_sound = { Prim.search rules };

    fn write(&mut self, key: u16, value: u32) -> Result<(), WriteRefusal> {
        self.falling = switch_from(key, value)?;
        Ok(())
    }

    fn copied(&self) -> ByNumber {
        *self
    }
}

impl Ranking for ByNumber {
    ghost before = { number_before };

    ghost order = { Prim.search rules };

    fn precedes(&self, first: Application, second: Application) -> bool {
        if self.falling {
            second < first
        } else {
            first < second
        }
    }
}
