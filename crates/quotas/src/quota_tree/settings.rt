// A quota tree at its start, and what stands in it.
ghost use Rattle.std.specs.Prelude.{◌≡◌};
ghost use Rattle.quotas.specs.Climbs.{NextUp};
ghost use Rattle.quotas.specs.Quotas.{cap_of, first_quotas, home_of, parent_of};

use super::QuotaTree;
use super::quotas::{Quota, Quotas};
use parts::numbers::{APPLICATIONS, Application, GROUPS, Group};

impl QuotaTree {
    // Every cap at 256, every group directly below group 0, every application at home in group 0.
    pub fn new() -> QuotaTree
        ensures { result.quotas ≡ first_quotas }
    {
        let groups = [Quota::START; GROUPS];
        let homes = [Group::ROOT; APPLICATIONS];
        QuotaTree {
            quotas: Quotas { groups, homes },
        }
    }

    pub fn cap(&self, group: Group) -> u16
        ensures { result ≡ cap_of self.now.quotas group.number }
    {
        u16::from(self.quotas.groups[usize::from(group)].cap)
    }

    // The group directly above; group 0 has none.
    pub fn parent(&self, group: Group) -> Option<Group>
        ensures { NextUp (parent_of self.now.quotas) group.number result }
    {
        if group == Group::ROOT {
            return None;
        }
        Some(self.quotas.groups[usize::from(group)].parent)
    }

    pub fn home(&self, application: Application) -> Group
        ensures { result.number ≡ home_of self.now.quotas application.0 }
    {
        self.quotas.homes[usize::from(application)]
    }
}
