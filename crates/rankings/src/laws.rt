// What is proved of the supplied rankings, whatever was written to them. Each function stands for a
// theorem: it does nothing, and its contract is what is proved.
ghost use Rattle.rankings.specs.Laws.{LargerScoresPrecede, SmallerRanksPrecede};

use crate::rank_list::RankList;
use crate::scores::Scores;
use parts::part::{AsRanking, Part};
use parts::ranking::Ranking;

// By a rank list an application precedes another exactly when its rank is the smaller.
pub fn smaller_ranks_precede()
    ensures { SmallerRanksPrecede ⟦<RankList as Part<AsRanking>>⟧.settings ⟦<RankList as Ranking>⟧.before }
{}

// By scores an application precedes another exactly when its score is the larger, or the scores are
// equal and its number is the smaller.
pub fn larger_scores_precede()
    ensures { LargerScoresPrecede ⟦<Scores as Part<AsRanking>>⟧.settings ⟦<Scores as Ranking>⟧.before }
{}
