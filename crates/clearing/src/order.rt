// The applications in the order of a ranking.
ghost use Rattle.std.specs.Prelude.{◌≡◌, ◌<◌, nat_eq};
ghost use Rattle.std.specs.Ordering.{is_eq, is_lt};
ghost use Rattle.parts.specs.Limits.{applications};
ghost use Rattle.clearing.specs.Orders.{InOrder};

use parts::numbers::{APPLICATIONS, Application};
use parts::ranking::Ranking;
use std::cmp::Ordering;

// How two applications stand in the ranking, which itself says only whether one precedes. That both
// are below the number of applications is handed on: a ranking orders no other numbers, and the sort
// wants an order.
fn compare<K: Ranking>(ranking: &K, first: Application, second: Application) -> Ordering
    ensures less { is_lt result ≡ K.before (K.settings ranking.now) first.0 second.0 }
    ensures equal { is_eq result ≡ nat_eq first.0 second.0 }
    ensures among { (first.0 < applications) × (second.0 < applications) }
{
    if ranking.precedes(first, second) {
        Ordering::Less
    } else if first == second {
        Ordering::Equal
    } else {
        Ordering::Greater
    }
}

// Every application, each before those that it precedes.
pub(crate) fn in_order<K: Ranking>(ranking: &K) -> [Application; APPLICATIONS]
    ensures { InOrder (K.before (K.settings ranking.now)) result }
{
    let mut row = Application::all();
    row.sort_unstable_by(|a, b| compare(ranking, *a, *b));
    row
}
