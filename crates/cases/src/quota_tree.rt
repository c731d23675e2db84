// Cases for the quota tree.
use super::steps::Step::{Accepts, No, Refuses, Yes};
use super::steps::{Allows, Step, check};
use parts::marks::Marks;
use parts::numbers::{APPLICATIONS, Application};
use parts::part::Part;
use parts::refusal::Cause::{ParentNotSmaller, UnusedKey, ValueAboveLimit};
use parts::rule::Rule;
use quotas::quota_tree::QuotaTree;
use std::test::Fail;

const CAPS: [Step<Allows>; 26] = [
    // At first no cap binds.
    Yes(Allows(&[], 0)),
    Yes(Allows(&[0, 1, 2], 255)),
    // Every application is in group 0.
    Accepts(0, 1),
    Yes(Allows(&[], 255)),
    No(Allows(&[0], 255)),
    // A marked number that is asked about is one member.
    Yes(Allows(&[7], 7)),
    Refuses(0, 257, ValueAboveLimit, 0, 0),
    Refuses(0, u32::MAX, ValueAboveLimit, 0, 0),
    Yes(Allows(&[], 255)),
    No(Allows(&[0], 255)),
    Accepts(0, 0),
    No(Allows(&[], 0)),
    Refuses(0, 257, ValueAboveLimit, 0, 0),
    No(Allows(&[], 0)),
    Accepts(0, 256),
    Yes(Allows(&[0, 1], 255)),
    // The last group, in which nobody is at first.
    Refuses(127, 257, ValueAboveLimit, 0, 127),
    Accepts(127, 0),
    Yes(Allows(&[], 5)),
    Accepts(256 + 5, 127),
    No(Allows(&[], 5)),
    Yes(Allows(&[], 6)),
    Refuses(127, 257, ValueAboveLimit, 0, 127),
    No(Allows(&[], 5)),
    Accepts(127, 256),
    Yes(Allows(&[], 5)),
];

const PARENTS: [Step<Allows>; 45] = [
    // Group 1 takes one. Application 0 is at home in group 2, and 1 in group 1.
    Accepts(1, 1),
    Accepts(256, 2),
    Accepts(257, 1),
    // At first group 2 lies directly below group 0.
    Yes(Allows(&[0], 1)),
    Accepts(128 + 2, 1),
    Yes(Allows(&[], 0)),
    Yes(Allows(&[], 1)),
    No(Allows(&[0], 1)),
    No(Allows(&[1], 0)),
    Yes(Allows(&[0], 2)),
    // 128 is above the limit and not smaller than the group: the limit is tested first.
    Refuses(130, 2, ParentNotSmaller, 0, 130),
    Refuses(130, 3, ParentNotSmaller, 0, 130),
    Refuses(130, 127, ParentNotSmaller, 0, 130),
    Refuses(130, 128, ValueAboveLimit, 0, 130),
    Refuses(130, u32::MAX, ValueAboveLimit, 0, 130),
    No(Allows(&[0], 1)),
    Yes(Allows(&[0], 2)),
    // Group 3 below group 2, and application 2 at home there: it is in group 1 too.
    Accepts(128 + 3, 2),
    Accepts(258, 3),
    Yes(Allows(&[], 2)),
    No(Allows(&[1], 2)),
    No(Allows(&[2], 0)),
    // A cap between them leaves the parents as they are.
    Accepts(2, 0),
    No(Allows(&[], 0)),
    No(Allows(&[], 2)),
    Yes(Allows(&[], 1)),
    Accepts(2, 256),
    No(Allows(&[1], 2)),
    // Groups 2 and 3 leave group 1.
    Accepts(130, 0),
    Yes(Allows(&[0], 1)),
    Yes(Allows(&[1], 2)),
    // The first group with a parent, and the last.
    Accepts(129, 0),
    Refuses(129, 1, ParentNotSmaller, 0, 129),
    Refuses(129, 127, ParentNotSmaller, 0, 129),
    Refuses(129, 128, ValueAboveLimit, 0, 129),
    Accepts(126, 0),
    Accepts(511, 127),
    Yes(Allows(&[], 255)),
    Accepts(255, 126),
    No(Allows(&[], 255)),
    Refuses(255, 127, ParentNotSmaller, 0, 255),
    Refuses(255, 128, ValueAboveLimit, 0, 255),
    No(Allows(&[], 255)),
    Accepts(255, 0),
    Yes(Allows(&[], 255)),
];

const HOMES: [Step<Allows>; 15] = [
    // Group 127 takes nobody.
    Accepts(127, 0),
    Yes(Allows(&[], 0)),
    Accepts(256, 127),
    No(Allows(&[], 0)),
    Refuses(256, 128, ValueAboveLimit, 0, 256),
    Refuses(256, u32::MAX, ValueAboveLimit, 0, 256),
    No(Allows(&[], 0)),
    Yes(Allows(&[], 255)),
    Refuses(511, 128, ValueAboveLimit, 0, 511),
    Yes(Allows(&[], 255)),
    Accepts(511, 127),
    No(Allows(&[], 255)),
    Accepts(256, 0),
    Yes(Allows(&[], 0)),
    No(Allows(&[], 255)),
];

// Cause 1 is tested before the value is looked at.
const UNUSED: [Step<Allows>; 8] = [
    Accepts(0, 1),
    Refuses(128, 0, UnusedKey, 0, 128),
    Refuses(128, 257, UnusedKey, 0, 128),
    Refuses(512, 0, UnusedKey, 0, 512),
    Refuses(512, 257, UnusedKey, 0, 512),
    Refuses(65_535, u32::MAX, UnusedKey, 0, 65_535),
    Yes(Allows(&[], 255)),
    No(Allows(&[0], 255)),
];

#[test]
fn caps(rt: HostRuntime) {
    check(&rt, "the quota tree", &mut QuotaTree::new(), &CAPS);
}

#[test]
fn parents(rt: HostRuntime) {
    check(&rt, "the quota tree", &mut QuotaTree::new(), &PARENTS);
}

#[test]
fn homes(rt: HostRuntime) {
    check(&rt, "the quota tree", &mut QuotaTree::new(), &HOMES);
}

#[test]
fn keys_without_use(rt: HostRuntime) {
    check(&rt, "the quota tree", &mut QuotaTree::new(), &UNUSED);
}

// A cap of 256 has room for all the applications, and one of 255 has not.
#[test]
fn all_applications(rt: HostRuntime) -> Result<(), Fail> {
    let mut tree = QuotaTree::new();
    assert!(rt; tree.allows(&Marks::from([true; APPLICATIONS]), Application::from(0)));
    tree.write(0, 255)?;
    assert!(rt; !tree.allows(&Marks::from([true; APPLICATIONS]), Application::from(0)));
    Ok(())
}
