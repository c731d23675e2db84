// The interface of a part, rule or ranking: what its settings are, and how they are written and copied.
ghost use Rattle.std.specs.Prelude.{◌≡◌, ℕ, IfOk};
ghost use Rattle.parts.specs.Outcomes.{Outcome, Follows};

use crate::refusal::WriteRefusal;

// The part that a type is as a rule.
#[derive(Clone, Copy)]
pub struct AsRule;

// The part that a type is as a ranking.
#[derive(Clone, Copy)]
pub struct AsRanking;

// One type may be both, with settings and keys of its own in each role.
pub trait Part<Role>: Sized {
    // The part's meaning. Each implementation chooses its kind.
    type Settings;

    ghost settings: { Self → Self.Settings };

    // What the settings of every part of this kind keep to.
    ghost sound: { Self.Settings → Type 0 };

    // What comes of a write with a key and a value.
    ghost written: { Self.Settings → ℕ → ℕ → Outcome Self.Settings };

    // Puts the value under the key, or refuses and leaves the settings.
    fn write(&mut self, key: u16, value: u32) -> Result<(), WriteRefusal>
        ensures { Follows (written (settings self.old) key value)
            (settings self.old) (settings self.new) result };

    // Another part of the same meaning. std's `Clone` may run out of memory, and says nothing of settings.
    fn copied(&self) -> Self
        ensures { settings result ≡ settings self.now };

    // The settings of every part are sound.
    ghost settings_sound: { (part : Self) → sound (settings part) };

    // An accepted write leaves sound settings.
    ghost written_sound: { (s : Self.Settings) (key value : ℕ) → sound s → IfOk (written s key value) sound };
}
