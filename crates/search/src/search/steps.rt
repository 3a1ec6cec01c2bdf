// What the calls do.
ghost use Rattle.std.specs.Prelude.{◌≡◌, length};
ghost use Rattle.records.specs.Openings.{lent_of, problem_of};
ghost use Rattle.search.specs.Calls.{Made, RunAnswered, ReadAnswered};
ghost use Rattle.search.specs.States.{table_of};

use super::Search;
use crate::beginning::{first_records, judged, sized_up};
use bounds::Bound;
use costs::Tally;
use runs::{Holding, copy_trail, run, trail_length};
use tasks::Task;
use theory::{End, Record, Refusal, Reply};

impl<'a, 't, V: Tally> Search<'a, 't, V> {
    pub(super) fn over<B: Bound<Value = V>>(
        task: Task<'t>,
        bound: &B,
        table: &'a mut [Record<V>],
    ) -> Search<'a, 't, V>
        ensures { Made (problem_of V.Tally B.Bound task.entry bound.now (length table.old)) table.old result }
    {
        let made = sized_up(&task, bound, table.len());
        let records = first_records(&task, bound, table, made);
        let holding = Holding {
            records,
            end: End::Going,
        };
        Search {
            task,
            holding,
            made,
        }
    }

    pub(super) fn run_by<B: Bound<Value = V>>(
        &mut self,
        bound: &B,
        grant: u32,
    ) -> Result<Reply<V>, Refusal>
        ensures ran { RunAnswered V.Tally (lent_of B.Bound self.old.task bound.now) grant self.old self.new result }
        ensures lent { self.new.holding.records.table.ghost_name ≡ self.old.holding.records.table.ghost_name }
    {
        self.made?;
        if grant > 65536 {
            return Err(Refusal::GrantTooLarge);
        }
        let task = self.task;
        judged(&task, bound)?;
        Ok(run(&task, bound, &mut self.holding, grant))
    }

    pub(super) fn read_into(&self, list: &mut [u16]) -> Result<u16, Refusal>
        ensures { ReadAnswered V.Tally self.now list.old list.new result }
    {
        self.made?;
        let End::Planned(number) = self.holding.end else {
            return Err(Refusal::NotPlanned);
        };
        let rows = self.holding.records.rows();
        let length = trail_length(rows, number);
        if list.len() < usize::from(length) {
            return Err(Refusal::ListTooShort);
        }
        copy_trail(rows, number, list);
        Ok(length)
    }

    pub(super) fn give_back(self) -> &'a mut [Record<V>]
        ensures { result.now ≡ table_of self.entry }
    {
        let Search {
            task: _,
            holding,
            made: _,
        } = self;
        let Holding { records, end: _ } = holding;
        records.into_table()
    }
}
