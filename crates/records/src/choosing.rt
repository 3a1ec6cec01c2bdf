// The choice. Nothing else compares promises, so a heap may go behind it.
ghost use Rattle.std.specs.Prelude.{◌≡◌, ◌≤◌, length, MatchOption};
ghost use Rattle.theory.specs.Records.{NoneWaits};
ghost use Rattle.records.specs.Choice.{is_before, better_of, IsChosen};

use crate::numbered::Numbered;
use costs::Tally;
use theory::{Mark, Record};

// The waiting record of least promise, then least spent, then lowest number.
pub fn choice<V: Tally>(rows: &[Record<V>]) -> Option<Numbered<V>>
    requires { length rows.now ≤ 65535 }
    ensures { MatchOption result (NoneWaits rows.now) (IsChosen V.Tally rows.now) }
{
    let mut best = None;
    for (number, row) in rows.iter().enumerate() {
        best = better(
            best,
            Numbered {
                number: number as u16,
                row: *row,
            },
        );
    }
    best
}

// Which of the best so far and the record after it is the better choice: the earlier one where they tie.
fn better<V: Tally>(best: Option<Numbered<V>>, next: Numbered<V>) -> Option<Numbered<V>>
    ensures { result ≡ better_of V.Tally best next }
{
    match next.row.mark {
        Mark::Shut => best,
        Mark::Waiting => match best {
            None => Some(next),
            Some(b) => {
                if comes_before(next.row, b.row) {
                    Some(next)
                } else {
                    Some(b)
                }
            }
        },
    }
}

// Whether one record comes before another by promise, then spent. The order is that of the tally at hand, so there is no `Ord`.
fn comes_before<V: Tally>(one: Record<V>, other: Record<V>) -> bool
    ensures { result ≡ is_before V.Tally one other }
{
    if !other.promise.at_most(one.promise) {
        return true;
    }
    one.promise.at_most(other.promise) && !other.spent.at_most(one.spent)
}
