// A search, which owes its table until it is closed.
ghost use Rattle.std.specs.Prelude.{◌≡◌, length, Ok};
ghost use Rattle.records.specs.Tables.{table_of, recs_of, room_of};
ghost use Rattle.runs.specs.Trails.{Sane};

use runs::Holding;
use tasks::Task;
use theory::Refusal;

pub mod calls;
mod steps;

// A search: its task, what it holds, and why it was refused, if so.
#[derive(Drop)]
pub struct Search<'a, 't, V> {
    task: Task<'t>,
    holding: Holding<'a, V>,
    // why it could not be made, if so; every later call is refused with the same number
    made: Result<(), Refusal>,
    // if it was made, every place of its table may be a record
    ghost whole: { (made ≡ Ok tt → room_of holding.records ≡ length (table_of holding.records)) },
    // each record has its way back to record 0, or that of the plan
    ghost traced: { ∥ Sane (recs_of holding.records) holding.end ∥₁ },
}
