// The quota tree as a rule.
ghost use Rattle.matroid.specs.Trees.{Rooted};
ghost use Rattle.quotas.specs.Quotas.{keeps_quotas, parent_of, quotas_written};
ghost use Rattle.quotas.specs.Groups.{written_rooted};
ghost use Rattle.quotas.specs.QuotaLaws.{quotas_matroid};

use super::QuotaTree;
use super::quotas::Quotas;
use parts::marks::Marks;
use parts::numbers::Application;
use parts::part::{AsRule, Part};
use parts::refusal::WriteRefusal;
use parts::rule::Rule;

impl Part<AsRule> for QuotaTree {
    type Settings = Quotas;

    ghost settings = { λ tree. tree.quotas };

    ghost sound = { λ q. Rooted (parent_of q) };

    ghost written = { quotas_written };

    ghost settings_sound = { λ tree. tree.rooted };

    ghost written_sound = { written_rooted };

    fn write(&mut self, key: u16, value: u32) -> Result<(), WriteRefusal> {
        self.put(key, value)
            .map_err(|cause| WriteRefusal::here(cause, key))
    }

    fn copied(&self) -> QuotaTree {
        *self
    }
}

impl Rule for QuotaTree {
    ghost independent = { keeps_quotas };

    ghost matroid = { quotas_matroid };

    // Every member is counted in its home group and in the groups above it, and then each group is
    // weighed once: members × depth + groups steps.
    #[tactic(auto, using(crate::specs::QuotaLaws::quotas_decide))]
    fn allows(&self, marked: &Marks, asked: Application) -> bool {
        self.keeps_caps(&self.count_members(&marked.with(asked)))
    }
}
