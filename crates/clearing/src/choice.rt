// The choice of a side: greedy, by its ranking.
ghost use Rattle.std.specs.Prelude.{◌≡◌};
ghost use Rattle.matroid.specs.Choices.{Choice};
ghost use Rattle.matroid.specs.Matroids.{Lawful};
ghost use Rattle.parts.specs.Limits.{applications};
ghost use Rattle.parts.specs.Marks.{members};
ghost use Rattle.clearing.specs.Orders.{InOrder};
ghost use Rattle.clearing.specs.Sides.{side_of};

use super::order::in_order;
use super::side::Side;
use parts::marks::Marks;
use parts::numbers::{APPLICATIONS, Application};
use parts::ranking::Ranking;
use parts::rule::Rule;

// A side, with the applications in the order of its ranking, which serves for each choice it makes.
#[derive(Drop)]
pub(crate) struct Ordered<'a, R: Rule, K: Ranking> {
    side: &'a Side<'a, R, K>,
    order: [Application; APPLICATIONS],
    ghost in_order: { ∥ InOrder (K.before (K.settings side.now.ranking.now)) order ∥₁ },
}

impl<'a, R: Rule, K: Ranking> Ordered<'a, R, K> {
    // The side, after its ranking was asked for the order. Its parts keep the laws, so the side does.
    pub(crate) fn of(side: &'a Side<'a, R, K>) -> Ordered<'a, R, K>
        ensures same { result.side.now ≡ side.now }
        ensures lawful { Lawful applications (side_of R.settings R.independent K.settings K.before result.side.now) }
    {
        Ordered {
            side,
            order: in_order(side.ranking),
        }
    }

    // Goes through the offered applications in order, and chooses each that the rule allows beside
    // those chosen so far.
    pub(crate) fn choose(&self, offered: &Marks) -> Marks
        ensures { Choice (side_of R.settings R.independent K.settings K.before self.now.side.now) (members offered.now) (members result) }
    {
        let mut chosen = Marks::none();
        for &application in &self.order {
            if offered.contains(application) && self.side.rule.allows(&chosen, application) {
                chosen.insert(application);
            }
        }
        chosen
    }
}

// What the side chooses from the offered applications.
pub fn choose<R: Rule, K: Ranking>(side: &Side<R, K>, offered: &Marks) -> Marks
    ensures { Choice (side_of R.settings R.independent K.settings K.before side.now) (members offered.now) (members result) }
{
    Ordered::of(side).choose(offered)
}
