// How many members of a set each group has, and whether that is within the caps.
ghost use Rattle.std.specs.Prelude.{◌≡◌, ℕ, ◌+◌, ◌<◌, ◌≤◌, Decides, if◌then◌else◌, slice_index};
ghost use Rattle.matroid.specs.Sets.{card, ◌∩◌};
ghost use Rattle.matroid.specs.Trees.{inside};
ghost use Rattle.parts.specs.Limits.{applications, groups};
ghost use Rattle.parts.specs.Marks.{members};
ghost use Rattle.quotas.specs.Quotas.{belonging, cap_of, parent_of};

use super::QuotaTree;
use parts::marks::Marks;
use parts::numbers::{GROUPS, Group};

impl QuotaTree {
    // One member more for the home group and for every group above it.
    #[tactic(auto, using(crate::proofs::WayUp::count_here))]
    fn count_upward(&self, counts: &mut [u16; GROUPS], home: Group)
        requires { (g : ℕ) → g < groups → slice_index counts.old g < 256 }
        ensures { (g : ℕ) → g < groups
            → slice_index counts.new g ≡ slice_index counts.old g + (if inside (parent_of self.now.quotas) home.number g then 1 else 0) }
    {
        // no `for` over `iter::successors` is proved to end
        let mut next = Some(home);
        while let Some(group) = next {
            counts[usize::from(group)] += 1;
            next = self.parent(group);
        }
    }

    // The exact number of members that each group has of the marked applications.
    #[tactic(auto, using(matroid::proofs::Cards::card_more, matroid::proofs::Cards::card_bound))]
    pub(super) fn count_members(&self, marked: &Marks) -> [u16; GROUPS]
        ensures { (g : ℕ) → g < groups
            → slice_index result g ≡ card applications (members marked.now ∩ belonging self.now.quotas g) }
    {
        let mut counts = [0u16; GROUPS];
        for (home, mark) in self.quotas.homes.iter().zip(marked.row()) {
            if *mark {
                self.count_upward(&mut counts, *home);
            }
        }
        counts
    }

    // Whether no count is above its group's cap.
    pub(super) fn keeps_caps(&self, counts: &[u16; GROUPS]) -> bool
        ensures { Decides result ((g : ℕ) → g < groups → slice_index counts.now g ≤ cap_of self.now.quotas g) }
    {
        self.quotas
            .groups
            .iter()
            .zip(counts)
            .all(|(quota, count)| quota.cap.admits(*count))
    }
}
