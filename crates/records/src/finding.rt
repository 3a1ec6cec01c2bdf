// The record of a set. Nothing else looks through the sets of the records, so an index may go behind it.
ghost use Rattle.std.specs.Prelude.{◌≤◌, length, MatchOption};
ghost use Rattle.theory.specs.Openings.{Unrecorded};
ghost use Rattle.records.specs.Tables.{IsRecorded};

use costs::Tally;
use facts::FactSet;
use theory::Record;

// The number of the record of a set.
pub fn record_of<V: Tally>(rows: &[Record<V>], set: FactSet) -> Option<u16>
    requires { length rows.now ≤ 65535 }
    ensures { MatchOption result (Unrecorded rows.now set) (IsRecorded rows.now set) }
{
    let number = rows.iter().position(|row| row.set == set)?;
    Some(number as u16)
}
