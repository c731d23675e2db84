// The quota tree: groups with caps, each but group 0 below a parent of smaller number, and a home
// group for each application.
ghost use Rattle.matroid.specs.Trees.{Rooted};
ghost use Rattle.quotas.specs.Quotas.{parent_of};

mod counts;
mod keys;
pub mod quotas;
mod rules;
mod settings;
mod writes;

use quotas::Quotas;

#[derive(Clone, Copy)]
pub struct QuotaTree {
    quotas: Quotas,
    ghost rooted: { Rooted (parent_of quotas) },
}
