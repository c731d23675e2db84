// What stands under the keys of a quota tree.
ghost use Rattle.std.specs.Prelude.{◌≡◌, MatchResult};
ghost use Rattle.quotas.specs.Keys.{StandsUnder, Unused};
ghost use Rattle.parts.specs.declared.refusal.Cause.TheVariants.{UnusedKey};

use parts::numbers::{Application, Group};
use parts::refusal::Cause;

#[derive(Clone, Copy)]
pub(super) enum Setting {
    // how many members the group may have
    Cap(Group),
    // the group above the named one; group 0 has none
    Parent(Group),
    // the group in which the application is at home
    Home(Application),
}

impl TryFrom<u16> for Setting {
    type Error = Cause;

    ghost try_from_gives = { λ key result. MatchResult result (StandsUnder key) (λ cause. Unused key × (cause ≡ UnusedKey)) };

    fn try_from(key: u16) -> Result<Setting, Cause> {
        // in each range the number fits, so that no conversion here fails
        match key {
            0..=127 => Group::try_from(u32::from(key)).map(Setting::Cap),
            129..=255 => Group::try_from(u32::from(key - 128)).map(Setting::Parent),
            256..=511 => Application::try_from(key - 256).map(Setting::Home),
            _ => Err(Cause::UnusedKey),
        }
    }
}
