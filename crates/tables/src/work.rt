// Working out the table of a task.
ghost use Rattle.tables.specs.Equation.{setting_of};
ghost use Rattle.tables.specs.Worked.{WorksOut};

use crate::layout::Layout;
use crate::origin::Origin;
use crate::refusal::TableTooShort;
use crate::settling::settle;
use costs::{Estimate, Tally};
use tasks::Task;

// Works out the table of a task in the first places of the one lent. It tells how many places it filled.
pub fn work_out<L: Layout<V>, V: Tally>(
    task: &Task<'_>,
    groups: u8,
    table: &mut [Estimate<V>],
) -> Result<usize, TableTooShort>
    ensures { WorksOut V.Tally (L.Layout.net (setting_of task.now groups)) table.old table.new result }
{
    let count = L::count(task.facts());
    if table.len() < count {
        return Err(TableTooShort);
    }
    // does nothing: it brings what holds of the places
    L::is_laid();
    let (places, _) = table.split_at_mut(count);
    settle::<L, V>(&Origin::of(task, groups), places);
    Ok(count)
}
