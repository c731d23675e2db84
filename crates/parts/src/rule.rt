// The interface of a rule: which sets of applications a side can accept.
ghost use Rattle.std.specs.Prelude.{◌≡◌, Bool};
ghost use Rattle.matroid.specs.Matroids.{Matroid};
ghost use Rattle.matroid.specs.Sets.{Set, add};
ghost use Rattle.parts.specs.Marks.{members};
ghost use Rattle.parts.specs.Limits.{applications};

use crate::marks::Marks;
use crate::numbers::Application;
use crate::part::{AsRule, Part};

pub trait Rule: Part<AsRule> {
    // The sets that the rule can accept.
    ghost independent: { Self.Settings → Set → Bool };

    // Whether the marked applications together with that one are independent.
    fn allows(&self, marked: &Marks, asked: Application) -> bool
        ensures { result ≡ independent (Self.settings self.now) (add (members marked.now) asked.0) };

    // Sound settings give a matroid.
    ghost matroid: { (s : Self.Settings) → Self.sound s → Matroid applications (independent s) };
}
