// What is proved of a quota tree, whatever was written to it. The function stands for a theorem: it
// does nothing, and its contract is what is proved.
ghost use Rattle.quotas.specs.Laws.{QuotasAreCaps};

use crate::quota_tree::QuotaTree;
use parts::part::{AsRule, Part};
use parts::rule::Rule;

// A set is independent exactly when no group has more of its members than the group's cap.
#[tactic(auto, using(crate::specs::QuotaLaws::quotas_decide))]
pub fn quotas_are_caps()
    ensures { QuotasAreCaps ⟦<QuotaTree as Part<AsRule>>⟧.settings ⟦<QuotaTree as Rule>⟧.independent }
{}
