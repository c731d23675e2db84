// Writes to a quota tree, by the setting that stands under the key.
ghost use Rattle.parts.specs.Outcomes.{Follows};
ghost use Rattle.quotas.specs.Keys.{at_key};
ghost use Rattle.quotas.specs.Quotas.{quotas_written};

use super::QuotaTree;
use super::keys::Setting;
use parts::numbers::{Cap, Group};
use parts::refusal::Cause;

impl QuotaTree {
    // Puts the value under the key, or says why not and leaves the settings.
    #[tactic(auto, using(crate::specs::Groups::group_again))]
    pub(super) fn put(&mut self, key: u16, value: u32) -> Result<(), Cause>
        ensures { Follows (quotas_written self.old.quotas key value)
            self.old.quotas self.new.quotas (at_key key result) }
    {
        match Setting::try_from(key)? {
            Setting::Cap(group) => {
                self.quotas.groups[usize::from(group)].cap = Cap::try_from(value)?;
            }
            Setting::Parent(group) => {
                let parent = Group::try_from(value)?;
                if parent >= group {
                    return Err(Cause::ParentNotSmaller);
                }
                self.quotas.groups[usize::from(group)].parent = parent;
            }
            Setting::Home(application) => {
                self.quotas.homes[usize::from(application)] = Group::try_from(value)?;
            }
        }
        Ok(())
    }
}
