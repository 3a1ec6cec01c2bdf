// What a bound is (planners call it a heuristic): an estimate for each set, and each move's share in it.
ghost use Rattle.std.specs.Prelude.{◌≡◌, ℕ, Bool, T};
ghost use Rattle.facts.specs.declared.sets.FactSet.{FactSet};
ghost use Rattle.tasks.specs.declared.task.Task.{Task};
ghost use Rattle.costs.specs.Estimates.{Estimate};
ghost use Rattle.bounds.specs.Sound.{Sound};

use costs::{Estimate, Tally};
use facts::FactSet;
use tasks::Task;

pub trait Bound {
    // The kind of cost that it belongs to.
    type Value: Tally;

    ghost fitting: { Self → Task → Bool };

    ghost estimated: { Self → FactSet → Estimate Self.Value };

    ghost shared: { Self → ℕ → Self.Value };

    // Whether it fits the task; then its estimates and shares keep the two laws there.
    fn fits(&self, task: &Task<'_>) -> bool
        ensures told { result ≡ fitting self.now task.now }
        ensures sound { T result → Sound Self.Value.Tally task.now (estimated self.now) (shared self.now) };

    // At most what it costs to reach the set from the start; never, where it cannot be reached.
    fn estimate(&self, set: FactSet) -> Estimate<Self::Value>
        ensures { result ≡ estimated self.now set };

    // By how much the move of this number may lower the estimate.
    fn share(&self, number: u16) -> Self::Value
        ensures { result ≡ shared self.now number };
}
