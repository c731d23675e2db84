// The settings of a quota tree.
use parts::numbers::{APPLICATIONS, Cap, GROUPS, Group};

// What is kept of one group: how many members it may have, and the group above it.
#[derive(Clone, Copy)]
pub struct Quota {
    pub cap: Cap,
    pub parent: Group,
}

impl Quota {
    // What every group starts with: a cap that never binds, and group 0 above it.
    pub const START: Quota = Quota {
        cap: Cap::WHOLE,
        parent: Group::ROOT,
    };
}

// The table of groups, and the home group of each application. Parents are numbers in the table: the
// engine takes no memory of its own.
#[derive(Clone, Copy)]
pub struct Quotas {
    pub groups: [Quota; GROUPS],
    pub homes: [Group; APPLICATIONS],
}
