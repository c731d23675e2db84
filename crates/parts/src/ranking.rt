// The interface of a ranking: which of two applications a side would rather have.
ghost use Rattle.std.specs.Prelude.{◌≡◌, ℕ, Bool};
ghost use Rattle.matroid.specs.Matroids.{StrictOrder};
ghost use Rattle.parts.specs.Limits.{applications};

use crate::numbers::Application;
use crate::part::{AsRanking, Part};

pub trait Ranking: Part<AsRanking> {
    // Which number precedes which.
    ghost before: { Self.Settings → ℕ → ℕ → Bool };

    // Whether the first application precedes the second.
    fn precedes(&self, first: Application, second: Application) -> bool
        ensures { result ≡ before (Self.settings self.now) first.0 second.0 };

    // Sound settings give a strict order.
    ghost order: { (s : Self.Settings) → Self.sound s → StrictOrder applications (before s) };
}
