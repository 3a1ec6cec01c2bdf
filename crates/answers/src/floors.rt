// What the goal of a task costs at least, by the pair table of all groups.
ghost use Rattle.std.specs.Prelude.{Some};
ghost use Rattle.answers.specs.Floors.{floor_text, IsFloor};

use bounds::Bound;
use costs::{Estimate, Minutes};
use std::fmt;
use tables::{Pair, Two, work_out};
use tasks::Task;

// The estimate of the goal, in minutes, with all groups counted.
pub fn floor_of(task: &Task<'_>) -> Estimate<Minutes>
    ensures { IsFloor task.now 255 result }
{
    goal_estimate(task, 255)
}

// The same with some groups counted.
fn goal_estimate(task: &Task<'_>, groups: u8) -> Estimate<Minutes>
    ensures { IsFloor task.now groups result }
{
    let mut table: [Estimate<Minutes>; 4096] = [None; 4096];
    let _ = work_out::<Two, Minutes>(task, groups, &mut table);
    Pair::of(task, groups, &table).estimate(task.goal())
}

// An estimate as it is printed: the minutes, or the word never.
#[derive(Clone, Copy)]
pub struct Floor(pub Estimate<Minutes>);

impl fmt::Display for Floor {
    ghost output = { λ floor. Some (floor_text floor.0) };

    fn fmt<W: fmt::Write>(&self, f: &mut fmt::Formatter<W>) -> fmt::Result {
        match self.0 {
            Some(cost) => {
                let total = cost.total;
                write!(f, "{total}")
            }
            None => write!(f, "never"),
        }
    }
}
