// The opening of the choice: each move is taken from it in rising order, then it is shut.
ghost use Rattle.std.specs.Prelude.{◌<◌, length};
ghost use Rattle.records.specs.Tables.{recs_of, room_of, Grown};
ghost use Rattle.records.specs.Openings.{problem_of, TookAll, Opened};

use crate::cells::Full;
use crate::numbered::Numbered;
use crate::table::Records;
use crate::taking::child;
use bounds::Bound;
use costs::Tally;
use tasks::Task;

// Opens the choice. Task and bound come apart, since the task stays with a search and a bound is handed to each of its runs.
pub fn open<V: Tally, B: Bound<Value = V>>(
    task: &Task<'_>,
    bound: &B,
    records: &mut Records<'_, V>,
    choice: &Numbered<V>,
) -> Result<(), Full>
    ensures grown { Grown records.old records.new }
    ensures opened { choice.now.number < length (recs_of records.old) → Opened (problem_of V.Tally B.Bound task.now bound.now (room_of records.old)) (recs_of records.old) (recs_of records.new) choice.now.number choice.now.row result }
{
    take_moves(task, bound, records, choice)?;
    records.shut(choice.number);
    Ok(())
}

// Takes each move from the choice in rising order.
fn take_moves<V: Tally, B: Bound<Value = V>>(
    task: &Task<'_>,
    bound: &B,
    records: &mut Records<'_, V>,
    choice: &Numbered<V>,
) -> Result<(), Full>
    ensures grown { Grown records.old records.new }
    ensures taken { TookAll (problem_of V.Tally B.Bound task.now bound.now (room_of records.old)) (recs_of records.old) (recs_of records.new) choice.now.number choice.now.row result }
{
    let moves = task.moves();
    for (number, m) in moves.iter().enumerate() {
        let Some(set) = m.regress(choice.row.set) else {
            continue;
        };
        let Some(estimate) = bound.estimate(set) else {
            continue;
        };
        records.enter(child(choice, number as u16, *m, set, estimate))?;
    }
    Ok(())
}
