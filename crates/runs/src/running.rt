// A run, rule by rule.
ghost use Rattle.std.specs.Prelude.{length};
ghost use Rattle.theory.specs.declared.reply.End.TheVariants.{Going};
ghost use Rattle.records.specs.Openings.{problem_of};
ghost use Rattle.records.specs.Tables.{recs_of, room_of, Grown};
ghost use Rattle.runs.specs.Ends.{Inside};
ghost use Rattle.runs.specs.Trails.{Sane};
ghost use Rattle.runs.specs.Outcomes.{RunsTo};

use crate::holding::Holding;
use crate::stopping::{Ran, arrived, arrives, filled, is_used_up, paused, ran_out};
use crate::telling::tell;
use crate::trails::trail_length;
use bounds::Bound;
use costs::Tally;
use records::{Full, Records, choice, open};
use tasks::Task;
use theory::Reply;

// A run with a grant of openings. A search that has ended tells its end again.
pub fn run<V: Tally, B: Bound<Value = V>>(
    task: &Task<'_>,
    bound: &B,
    holding: &mut Holding<'_, V>,
    grant: u32,
) -> Reply<V>
    ensures grown { Grown holding.old.records holding.new.records }
    ensures ran { ∥ Sane (recs_of holding.old.records) holding.old.end ∥₁ → RunsTo (problem_of V.Tally B.Bound task.now bound.now (room_of holding.old.records)) grant (recs_of holding.old.records) holding.old.end result (recs_of holding.new.records) holding.new.end }
{
    if let Some(reply) = tell(holding) {
        return reply;
    }
    let ran = go_on(task, bound, &mut holding.records, grant);
    holding.end = ran.end;
    ran.reply
}

// A run of a search that has not ended.
fn go_on<V: Tally, B: Bound<Value = V>>(
    task: &Task<'_>,
    bound: &B,
    records: &mut Records<'_, V>,
    grant: u32,
) -> Ran<V>
    ensures grown { Grown records.old records.new }
    ensures inside { Inside (length (recs_of records.new)) result.end }
    ensures ran { ∥ Sane (recs_of records.old) Going ∥₁ → RunsTo (problem_of V.Tally B.Bound task.now bound.now (room_of records.old)) grant (recs_of records.old) Going result.reply (recs_of records.new) result.end }
{
    let mut opened = 0;
    while let Some(first) = choice(records.rows()) {
        if arrives(task, &first) {
            return arrived(&first, opened, trail_length(records.rows(), first.number));
        }
        if is_used_up(opened, grant) {
            return paused(&first, opened);
        }
        match open(task, bound, records, &first) {
            Ok(()) => opened += 1,
            Err(Full) => return filled(&first, opened),
        }
    }
    ran_out(opened)
}
