// One type in both roles, as another author may make it: a gate where it is asked as a rule and an order by
// number where it is asked as a ranking. Each role has its own settings and its own switch, under key 0.
ghost use Rattle.std.specs.Prelude.{◌≡◌, true, false};
ghost use Rattle.std.proofs.Common.{rules};
ghost use Rattle.cases.specs.Foreign.{let_through, number_before, switched};
ghost use Rattle.cases.specs.Gates.{gate_matroid};

use super::foreign::{ByNumber, Gate};
use parts::marks::Marks;
use parts::numbers::Application;
use parts::part::{AsRanking, AsRule, Part};
use parts::ranking::Ranking;
use parts::refusal::WriteRefusal;
use parts::rule::Rule;

#[derive(Clone, Copy)]
pub struct GateAndOrder {
    gate: Gate,
    order: ByNumber,
}

impl GateAndOrder {
    // An open gate and the rising order.
    pub fn new() -> GateAndOrder
        ensures { (result.gate.«open» ≡ true) × (result.order.falling ≡ false) }
    {
        GateAndOrder {
            gate: Gate::new(),
            order: ByNumber::new(),
        }
    }
}

impl Part<AsRule> for GateAndOrder {
    // whether the gate is open
    type Settings = bool;

    ghost settings = { λ both. both.gate.«open» };

    ghost sound = { λ _. Unit {0} };

    ghost written = { switched };

    ghost settings_sound = { Prim.search rules };

    ghost written_sound = { Prim.search rules };

    fn write(&mut self, key: u16, value: u32) -> Result<(), WriteRefusal> {
        self.gate.write(key, value)
    }

    fn copied(&self) -> GateAndOrder {
        *self
    }
}

impl Rule for GateAndOrder {
    ghost independent = { let_through };

    ghost matroid = { λ lets _. gate_matroid lets };

    fn allows(&self, marked: &Marks, asked: Application) -> bool {
        self.gate.allows(marked, asked)
    }
}

impl Part<AsRanking> for GateAndOrder {
    // whether the order is falling
    type Settings = bool;

    ghost settings = { λ both. both.order.falling };

    ghost sound = { λ _. Unit {0} };

    ghost written = { switched };

    ghost settings_sound = { Prim.search rules };

    ghost written_sound = { Prim.search rules };

    fn write(&mut self, key: u16, value: u32) -> Result<(), WriteRefusal> {
        self.order.write(key, value)
    }

    fn copied(&self) -> GateAndOrder {
        *self
    }
}

impl Ranking for GateAndOrder {
    ghost before = { number_before };

    ghost order = { Prim.search rules };

    fn precedes(&self, first: Application, second: Application) -> bool {
        self.order.precedes(first, second)
    }
}
