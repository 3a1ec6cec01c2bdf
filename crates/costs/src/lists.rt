// What a list of moves costs.
ghost use Rattle.std.specs.Option.{MatchOption};
ghost use Rattle.tasks.specs.Tasks.{moves_of};
ghost use Rattle.costs.specs.Lists.{Costs, Unknown};

use crate::tally::Tally;
use tasks::Task;

// The join of the charges of the list's moves; `None` where a number of the list is no move.
pub fn list_cost<V: Tally>(task: &Task<'_>, list: &[u16]) -> Option<V>
    ensures { MatchOption result (Unknown (moves_of task.now) list.now) (Costs V.Tally (moves_of task.now) list.now) }
{
    join_charges(task, list)
}

fn join_charges<V: Tally>(task: &Task<'_>, list: &[u16]) -> Option<V>
    ensures { MatchOption result (Unknown (moves_of task.now) list.now) (Costs V.Tally (moves_of task.now) list.now) }
{
    let mut cost = V::nil();
    for number in list {
        let m = task.get(*number)?;
        cost = cost.join(V::charge(m.price, m.group));
    }
    Some(cost)
}
