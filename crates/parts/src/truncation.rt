// The truncation: a layer over any rule that accepts no more than so many applications.
ghost use Rattle.std.specs.Prelude.{◌≡◌, ◌≤◌};
ghost use Rattle.parts.specs.Truncations.{capped_independent, CappedSound, capped_written};
ghost use Rattle.parts.specs.TruncationsLemmas.{capped_written_sound};
ghost use Rattle.matroid.proofs.Truncations.{truncation_matroid};
ghost use Rattle.parts.specs.Limits.{applications};

use crate::marks::Marks;
use crate::numbers::{Application, Cap};
use crate::part::{AsRule, Part};
use crate::refusal::WriteRefusal;
use crate::rule::Rule;

// The settings of a truncation: how many applications it accepts at most, and the settings below.
#[derive(Clone, Copy)]
pub struct Capped<S> {
    pub cap: Cap,
    pub below: S,
}

// A rule under a cap on the number of applications.
#[derive(Drop)]
pub struct Truncation<R: Rule> {
    cap: Cap,
    below: R,
    ghost within: { cap.0 ≤ 256 },
}

impl<R: Rule> Truncation<R> {
    // The rule with a cap that never binds.
    pub fn over(below: R) -> Truncation<R>
        ensures { (result.«cap».0 ≡ 256) × (result.below ≡ below) }
    {
        Truncation {
            cap: Cap::WHOLE,
            below,
        }
    }

    // How many applications it accepts at most.
    pub fn cap(&self) -> u16
        ensures { result ≡ self.now.«cap».0 }
    {
        u16::from(self.cap)
    }

    // The rule that it lies over.
    pub fn below(&self) -> &R
        ensures { result.now ≡ self.now.below }
    {
        &self.below
    }
}

impl<R: Rule> Part<AsRule> for Truncation<R> {
    type Settings = Capped<R::Settings>;

    ghost settings = { λ t. record { «cap» = t.«cap»; below = R.settings t.below } };

    ghost sound = { CappedSound R.sound };

    ghost written = { capped_written R.written };

    ghost settings_sound = { λ t. (t.within, R.settings_sound t.below) };

    ghost written_sound = { capped_written_sound R.sound R.written R.written_sound };

    fn write(&mut self, key: u16, value: u32) -> Result<(), WriteRefusal> {
        if key == 0 {
            self.cap = Cap::try_from(value).map_err(|cause| WriteRefusal::here(cause, key))?;
            return Ok(());
        }
        self.below
            .write(key - 1, value)
            .map_err(WriteRefusal::from_below)
    }

    // Field by field, since the rule below need not be plain data.
    fn copied(&self) -> Truncation<R> {
        Truncation {
            cap: self.cap,
            below: self.below.copied(),
        }
    }
}

impl<R: Rule> Rule for Truncation<R> {
    ghost independent = { capped_independent R.independent };

    ghost matroid = { λ s (within, below). truncation_matroid applications s.«cap».0 _ (R.matroid s.below below) };

    fn allows(&self, marked: &Marks, asked: Application) -> bool {
        self.cap.admits(marked.with(asked).count()) && self.below.allows(marked, asked)
    }
}
