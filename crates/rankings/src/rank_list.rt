// The rank list: a ranking in which each rank belongs to one application.
ghost use Rattle.std.specs.Prelude.{◌≡◌};
ghost use Rattle.rankings.specs.Holders.{Paired};
ghost use Rattle.rankings.specs.Ranks.{Distinct, exchanged, rank_before, rank_of, RankedByNumber, ranks_written};
ghost use Rattle.rankings.specs.RanksLemmas.{exchanged_distinct, paired_distinct};
ghost use Rattle.std.proofs.Common.{rules};

use parts::numbers::{APPLICATIONS, Application};
use parts::part::{AsRanking, Part};
use parts::ranking::Ranking;
use parts::refusal::{Cause, WriteRefusal};
use std::array;

// The rank of each application, and the application that has each rank: a row by application and a row by
// rank, of which each undoes the other, so that an exchange need not look for the other application.
#[derive(Clone, Copy)]
pub struct RankList {
    ranks: [u8; APPLICATIONS],
    holders: [Application; APPLICATIONS],
    ghost paired: { Paired ranks holders },
}

impl RankList {
    // Every application with its number for a rank.
    pub fn new() -> RankList
        ensures { RankedByNumber result.ranks }
    {
        RankList {
            ranks: array::from_fn(|number| number as u8),
            holders: Application::all(),
        }
    }

    // The rank of the application.
    pub fn rank(&self, application: Application) -> u8
        ensures { result ≡ rank_of self.now.ranks application.0 }
    {
        self.ranks[usize::from(application)]
    }

    // The application that has the rank.
    pub fn holder(&self, rank: u8) -> Application
        ensures { rank_of self.now.ranks result.0 ≡ rank }
    {
        self.holders[usize::from(rank)]
    }

    // Gives the application the rank, and its former rank to the application that had this one.
    // Four writes, since std's `swap` first looks which of its two places is the smaller, and that takes longer.
    fn exchange(&mut self, application: Application, rank: u8)
        ensures { self.new.ranks ≡ exchanged self.old.ranks application.0 rank }
    {
        let former = self.rank(application);
        let other = self.holder(rank);
        let (own, taken) = (usize::from(application), usize::from(rank));
        self.ranks[own] = rank;
        self.ranks[usize::from(other)] = former;
        self.holders[taken] = application;
        self.holders[usize::from(former)] = other;
    }
}

impl Part<AsRanking> for RankList {
    // the rank of each application
    type Settings = [u8; APPLICATIONS];

    ghost settings = { λ list. list.ranks };

    ghost sound = { Distinct };

    ghost written = { ranks_written };

    ghost settings_sound = { λ list. paired_distinct list.ranks list.holders list.paired };

    ghost written_sound = { Prim.search (rules, exchanged_distinct) };

    fn write(&mut self, key: u16, value: u32) -> Result<(), WriteRefusal> {
        let refused = |cause| WriteRefusal::here(cause, key);
        let application = Application::try_from(key).map_err(refused)?;
        let rank = u8::try_from(value).map_err(|_| refused(Cause::ValueAboveLimit))?;
        self.exchange(application, rank);
        Ok(())
    }

    fn copied(&self) -> RankList {
        *self
    }
}

impl Ranking for RankList {
    ghost before = { rank_before };

    ghost order = { Prim.search rules };

    fn precedes(&self, first: Application, second: Application) -> bool {
        self.rank(first) < self.rank(second)
    }
}
