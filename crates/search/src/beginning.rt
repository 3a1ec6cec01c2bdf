// What is looked at before a search is made or run, and its first records.
ghost use Rattle.std.specs.Prelude.{◌≡◌, ◌≤◌, [], length, min};
ghost use Rattle.records.specs.Openings.{lent_of, problem_of};
ghost use Rattle.records.specs.Tables.{table_of, recs_of, room_of, Untouched};
ghost use Rattle.search.specs.Parts.{Judged, SizedUp, SoundOn};
ghost use Rattle.theory.specs.Records.{First};
ghost use Rattle.theory.specs.declared.refusal.Refusal.{Refusal};
ghost use Rattle.theory.specs.declared.record.Mark.TheVariants.{Waiting};

use bounds::{Bound, is_overdrawn};
use costs::Tally;
use facts::FactSet;
use records::Records;
use tasks::Task;
use theory::{Mark, Record, Refusal};

// That the bound can be used on the task, or why not.
pub fn judged<V: Tally, B: Bound<Value = V>>(task: &Task<'_>, bound: &B) -> Result<(), Refusal>
    ensures { Judged V.Tally task.now (lent_of B.Bound task.now bound.now) result }
{
    if !bound.fits(task) {
        return Err(Refusal::Misfit);
    }
    if is_overdrawn(bound, task) {
        return Err(Refusal::Overdrawn);
    }
    Ok(())
}

// That a search can be made over a table of so many places, or why not.
pub fn sized_up<V: Tally, B: Bound<Value = V>>(
    task: &Task<'_>,
    bound: &B,
    places: usize,
) -> Result<(), Refusal>
    ensures sized { SizedUp V.Tally task.now (lent_of B.Bound task.now bound.now) places result }
    ensures sound { SoundOn V.Tally task.now (lent_of B.Bound task.now bound.now) }
{
    let judged = judged(task, bound);
    if places == 0 || places > 65535 {
        return Err(Refusal::TableSize);
    }
    judged
}

// The record of the goal.
pub fn goal_record<V: Tally>(goal: FactSet, promise: V) -> Record<V>
    ensures { result ≡ record { set = goal; spent = V.Tally.nil; promise = promise; parent = 65535; via = 65535; mark = Waiting } }
{
    Record {
        set: goal,
        spent: V::nil(),
        promise,
        parent: 65535,
        via: 65535,
        mark: Mark::Waiting,
    }
}

// The records of a new search over a table: that of the goal, or none where its estimate is never or the search is refused.
pub fn first_records<'a, V: Tally, B: Bound<Value = V>>(
    task: &Task<'_>,
    bound: &B,
    table: &'a mut [Record<V>],
    made: Result<(), Refusal>,
) -> Records<'a, V>
    ensures first { made ≡ Ok tt → 1 ≤ length table.old → First (problem_of V.Tally B.Bound task.now bound.now (length table.old)) (recs_of result) }
    ensures none { (why : Refusal) → made ≡ Err why → recs_of result ≡ [] }
    ensures few { length (recs_of result) ≤ 1 }
    ensures rest { Untouched (length (recs_of result)) table.old (table_of result) }
    ensures room { room_of result ≡ min 65535 (length table.old) }
    ensures lent { result.table.ghost_name ≡ table.entry.ghost_name }
{
    let mut records = Records::new(table, 65535);
    if made.is_err() {
        return records;
    }
    if let Some(promise) = bound.estimate(task.goal()) {
        let _ = records.add(goal_record(task.goal(), promise));
    }
    records
}
