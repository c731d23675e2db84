// What is proved of every part, whatever was written to it, and of a truncation over any rule. Each
// function is named by its claim; the first two do nothing, and their contracts are what is proved.
ghost use Rattle.std.specs.Prelude.{Decides};
ghost use Rattle.matroid.specs.Sets.{add};
ghost use Rattle.parts.specs.Laws.{AlwaysAMatroid, AlwaysAStrictOrder, WithinTheCap};
ghost use Rattle.parts.specs.Marks.{members};

use crate::marks::Marks;
use crate::numbers::Application;
use crate::ranking::Ranking;
use crate::rule::Rule;
use crate::truncation::Truncation;

// The independent sets of every rule of that kind are those of a matroid.
pub fn rules_are_matroids<R: Rule>()
    ensures { AlwaysAMatroid R.settings R.independent }
{}

// Every ranking of that kind is a strict order of all the applications.
pub fn rankings_are_strict_orders<K: Ranking>()
    ensures { AlwaysAStrictOrder K.settings K.before }
{}

// A set is independent exactly when it is so below and has no more members than the cap: the
// truncation's answer says so.
pub fn truncations_cap_the_size<R: Rule>(
    truncation: &Truncation<R>,
    marked: &Marks,
    asked: Application,
) -> bool
    ensures { Decides result (WithinTheCap (R.independent (R.settings truncation.now.below)) truncation.now.«cap».0
        (add (members marked.now) asked.0)) }
{
    truncation.allows(marked, asked)
}
