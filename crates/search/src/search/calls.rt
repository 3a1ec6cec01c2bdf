// The calls of a search.
ghost use Rattle.std.specs.Prelude.{◌≡◌, length};
ghost use Rattle.records.specs.Openings.{lent_of, problem_of};
ghost use Rattle.search.specs.Calls.{Made, RunAnswered, ReadAnswered};
ghost use Rattle.search.specs.States.{table_of};

use super::Search;
use bounds::Bound;
use costs::Tally;
use tasks::Task;
use theory::{Record, Refusal, Reply};

impl<'a, 't, V: Tally> Search<'a, 't, V> {
    // Makes a search over a table: its first record is the goal, unless the bound says never. A refusal is kept in it.
    pub fn make<B: Bound<Value = V>>(
        task: Task<'t>,
        bound: &B,
        table: &'a mut [Record<V>],
    ) -> Search<'a, 't, V>
        ensures { Made (problem_of V.Tally B.Bound task.entry bound.now (length table.old)) table.old result }
    {
        Search::over(task, bound, table)
    }

    // Runs the search with a grant of openings, by any bound of its kind of cost.
    pub fn run<B: Bound<Value = V>>(&mut self, bound: &B, grant: u32) -> Result<Reply<V>, Refusal>
        ensures ran { RunAnswered V.Tally (lent_of B.Bound self.old.task bound.now) grant self.old self.new result }
        ensures lent { self.new.holding.records.table.ghost_name ≡ self.old.holding.records.table.ghost_name }
    {
        self.run_by(bound, grant)
    }

    // Reads out the list of a plan into the front of a lent list, and tells its length.
    pub fn read_out(&self, list: &mut [u16]) -> Result<u16, Refusal>
        ensures { ReadAnswered V.Tally self.now list.old list.new result }
    {
        self.read_into(list)
    }

    // Gives the table back as it stands, and uses the search up.
    pub fn close(self) -> &'a mut [Record<V>]
        ensures { result.now ≡ table_of self.entry }
    {
        self.give_back()
    }
}
