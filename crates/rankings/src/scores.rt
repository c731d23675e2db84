// The scores: a ranking by a signed score for each application.
ghost use Rattle.std.specs.Prelude.{◌≡◌, ◌<◌, ◌≤◌, pos, negsuc, ◌-ℤ◌, ◌≤ℤ◌, MatchResult};
ghost use Rattle.rankings.specs.Scores.{first_scores, score_before, score_of, scores_written, WithinThousand};
ghost use Rattle.std.proofs.Common.{rules};
ghost use Rattle.std.proofs.lemmas.Grind.{common_steps};
ghost use Rattle.rankings.specs.Scored.{scores_order};

use parts::numbers::{APPLICATIONS, Application};
use parts::part::{AsRanking, Part};
use parts::ranking::Ranking;
use parts::refusal::{Cause, WriteRefusal};
use std::cmp::Reverse;

// The score of each application.
#[derive(Clone, Copy)]
pub struct Scores {
    scores: [i16; APPLICATIONS],
    ghost within: { WithinThousand scores },
}

impl Scores {
    // Every application with the score 0.
    pub fn new() -> Scores
        ensures { result.scores ≡ first_scores }
    {
        Scores {
            scores: [0; APPLICATIONS],
        }
    }

    // The score of the application.
    pub fn score(&self, application: Application) -> i16
        ensures { (result ≡ score_of self.now.scores application.0) × ((negsuc 999 ≤ℤ result) × (result ≤ℤ pos 1000)) }
    {
        self.scores[usize::from(application)]
    }
}

// The score that the value sets, or the cause. A score is an `i16` of std, which takes no conversion of
// our own.
fn score_from(value: u32) -> Result<i16, Cause>
    ensures { MatchResult result (λ score. (value ≤ 2000) × (score ≡ pos value -ℤ pos 1000)) (λ cause. (2000 < value) × (cause ≡ Cause.ValueAboveLimit)) }
{
    if value > 2000 {
        return Err(Cause::ValueAboveLimit);
    }
    Ok(value as i16 - 1000)
}

impl Part<AsRanking> for Scores {
    // the score of each application
    type Settings = [i16; APPLICATIONS];

    ghost settings = { λ s. s.scores };

    ghost sound = { WithinThousand };

    ghost written = { scores_written };

    ghost settings_sound = { λ s. s.within };

    ghost written_sound = { Prim.search (rules, common_steps) };

    fn write(&mut self, key: u16, value: u32) -> Result<(), WriteRefusal> {
        let refused = |cause| WriteRefusal::here(cause, key);
        let application = Application::try_from(key).map_err(refused)?;
        let score = score_from(value).map_err(refused)?;
        self.scores[usize::from(application)] = score;
        Ok(())
    }

    fn copied(&self) -> Scores {
        *self
    }
}

impl Ranking for Scores {
    ghost before = { score_before };

    ghost order = { λ scores within. scores_order scores };

    // The larger score comes first, and of equal scores the smaller number.
    fn precedes(&self, first: Application, second: Application) -> bool {
        (Reverse(self.score(first)), first) < (Reverse(self.score(second)), second)
    }
}
