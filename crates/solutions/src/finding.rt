// The search that such a program makes: minutes, the pair table of all groups, 1,024 records and as many openings.
ghost use Rattle.tables.specs.Equation.{setting_of};
ghost use Rattle.tables.specs.Nets.{pairs as pair_net};
ghost use Rattle.tables.specs.Worked.{WorkedOut};
ghost use Rattle.costs.specs.Kinds.{minutes};
ghost use Rattle.solutions.specs.Solutions.{Solved};

use costs::{Estimate, Minutes, Tally};
use facts::FactSet;
use queues::{Call, Told, queue};
use tables::{Pair, Two, work_out};
use tasks::Task;
use theory::{Mark, Record, Refusal, Reply};

// What the search tells of a task; the moves of a plan come into the front of the list.
pub fn search(task: Task<'_>, list: &mut [u16; 1024]) -> Reply<Minutes>
    ensures { Solved task.entry list.old list.new result }
{
    let mut pairs: [Estimate<Minutes>; 4096] = [None; 4096];
    let _ = work_out::<Two, Minutes>(&task, 255, &mut pairs);
    search_by(task, &pairs, list)
}

// The same by the pair table of the task.
fn search_by(task: Task<'_>, pairs: &[Estimate<Minutes>], list: &mut [u16; 1024]) -> Reply<Minutes>
    requires { WorkedOut minutes (pair_net minutes (setting_of task 255)) pairs.now }
    ensures { Solved task.entry list.old list.new result }
{
    let bound = Pair::of(&task, 255, pairs);
    let mut table = [blank(); 1024];
    let mut told = [Err(Refusal::NotPlanned); 2];
    let calls = [Call::Run(1024), Call::ReadOut(1024)];
    let _ = queue(task, &bound, &mut table, &calls, &mut told, list);
    // two patterns: a nested one loses what is known of its arms
    let first = told[0];
    let Ok(told) = first else { unreachable() };
    match told {
        Told::Ran(reply) => reply,
        Told::Read(_) => unreachable(),
    }
}

// A record to fill the table with; its places are written before they are read. The tests of trials have one of their own.
fn blank() -> Record<Minutes> {
    Record {
        set: FactSet::empty(),
        spent: Minutes::nil(),
        promise: Minutes::nil(),
        parent: 0,
        via: 0,
        mark: Mark::Shut,
    }
}
