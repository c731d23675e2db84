// The two rounds: four applications under two quota trees and two rank lists, set up by writes.
use clearing::side::Side;
use parts::marks::Marks;
use parts::numbers::Application;
use parts::part::Part;
use parts::refusal::WriteRefusal;
use quotas::quota_tree::QuotaTree;
use rankings::rank_list::RankList;

// A value to be put under a key.
#[derive(Clone, Copy)]
struct Write {
    key: u16,
    value: u32,
}

// What a side can accept, and what it would rather have.
#[derive(Clone, Copy)]
pub(crate) struct Parts {
    pub quotas: QuotaTree,
    pub ranks: RankList,
}

#[derive(Clone, Copy)]
pub(crate) struct Round {
    pub one: Parts,
    pub two: Parts,
    pub live: Marks,
}

// Groups 1 and 2 take one application each: {0, 1} and {2, 3} are at home there.
const ONE_OF_EACH_APPLICANT: [Write; 6] = [
    Write { key: 1, value: 1 },
    Write { key: 2, value: 1 },
    Write { key: 256, value: 1 },
    Write { key: 257, value: 1 },
    Write { key: 258, value: 2 },
    Write { key: 259, value: 2 },
];

// Groups 1 and 2 take one application each: {0, 2} and {1, 3} are at home there.
const ONE_AT_EACH_COLLEGE: [Write; 6] = [
    Write { key: 1, value: 1 },
    Write { key: 2, value: 1 },
    Write { key: 256, value: 1 },
    Write { key: 257, value: 2 },
    Write { key: 258, value: 1 },
    Write { key: 259, value: 2 },
];

// From 0, 1, 2, 3 to 0, 1, 3, 2: application 3 gets rank 2, and 2 gets its former rank.
const PAIR_RANKS: [Write; 1] = [Write { key: 3, value: 2 }];

// From 0, 1, 2, 3 to 2, 0, 1, 3: application 2 gets rank 0, then 0 gets rank 1.
const COLLEGE_RANKS: [Write; 2] = [Write { key: 2, value: 0 }, Write { key: 0, value: 1 }];

// Puts each value under its key, up to the first that the part refuses.
fn write_all<Role, P: Part<Role>>(part: &mut P, writes: &[Write]) -> Result<(), WriteRefusal> {
    for write in writes {
        part.write(write.key, write.value)?;
    }
    Ok(())
}

impl Parts {
    // As `clear` takes it.
    pub(crate) fn side(&self) -> Side<'_, QuotaTree, RankList> {
        Side {
            rule: &self.quotas,
            ranking: &self.ranks,
        }
    }

    // The parts after those writes.
    fn written(quotas: &[Write], ranks: &[Write]) -> Result<Parts, WriteRefusal> {
        let mut parts = Parts {
            quotas: QuotaTree::new(),
            ranks: RankList::new(),
        };
        write_all(&mut parts.quotas, quotas)?;
        write_all(&mut parts.ranks, ranks)?;
        Ok(parts)
    }
}

// The round in which applications 0 to 3 are live and side one has that ranking.
fn round_ranked(applicant_ranks: &[Write]) -> Result<Round, WriteRefusal> {
    Ok(Round {
        one: Parts::written(&ONE_OF_EACH_APPLICANT, applicant_ranks)?,
        two: Parts::written(&ONE_AT_EACH_COLLEGE, &COLLEGE_RANKS)?,
        live: (0..4)
            .map(Application::from)
            .fold(Marks::none(), |live, next| live.with(next)),
    })
}

pub(crate) fn pair() -> Result<Round, WriteRefusal> {
    round_ranked(&PAIR_RANKS)
}

// As `pair`, but side one ranks by number.
pub(crate) fn rush() -> Result<Round, WriteRefusal> {
    round_ranked(&[])
}
