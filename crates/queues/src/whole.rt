// The call that carries a whole queue.
ghost use Rattle.std.specs.Prelude.{length};
ghost use Rattle.records.specs.Openings.{problem_of};
ghost use Rattle.queues.specs.Promised.{KeepsPromises};

use crate::answering::answer_all;
use crate::calls::{Call, Told};
use bounds::Bound;
use costs::Tally;
use search::Search;
use tasks::Task;
use theory::{Record, Refusal};

// Makes a search from a task, a bound and a table, then makes each call in turn, every run with the same bound.
// The answers come into `replies`, beside their calls, and the moves read out into the front of `list`: both are lent, as there is no heap.
pub fn queue<'a, 't, V: Tally, B: Bound<Value = V>>(
    task: Task<'t>,
    bound: &B,
    table: &'a mut [Record<V>],
    calls: &[Call],
    replies: &mut [Result<Told<V>, Refusal>],
    list: &mut [u16],
) -> Search<'a, 't, V>
    ensures { KeepsPromises (problem_of V.Tally B.Bound task.entry bound.now (length table.old)) table.old calls.now replies.old replies.new list.old list.new result }
{
    let mut search = Search::make(task, bound, table);
    answer_all(&mut search, bound, calls, replies, list);
    search
}
