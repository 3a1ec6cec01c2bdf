// What a search that has ended tells again: the cost or the floor is read from the record of its end.
ghost use Rattle.std.specs.Prelude.{◌≡◌, MatchOption};
ghost use Rattle.theory.specs.declared.reply.End.TheVariants.{Going};
ghost use Rattle.records.specs.Tables.{recs_of};
ghost use Rattle.runs.specs.Ends.{Retells};

use crate::holding::Holding;
use crate::trails::trail_length;
use costs::Tally;
use records::read;
use theory::{End, Kind, Reply};

// The reply of a search that has ended, and none of one that has not.
pub fn tell<V: Tally>(holding: &Holding<'_, V>) -> Option<Reply<V>>
    ensures { MatchOption result (holding.now.end ≡ Going) (Retells V.Tally (recs_of holding.now.records) holding.now.end) }
{
    match holding.end {
        End::Going => None,
        End::Planned(number) => Some(Reply {
            kind: Kind::Plan,
            opened: 0,
            value: read(holding.records.rows(), number).spent,
            length: trail_length(holding.records.rows(), number),
        }),
        End::Exhausted => Some(Reply {
            kind: Kind::NoPlan,
            opened: 0,
            value: V::nil(),
            length: 0,
        }),
        End::Filled(number) => Some(Reply {
            kind: Kind::Full,
            opened: 0,
            value: read(holding.records.rows(), number).promise,
            length: 0,
        }),
    }
}
