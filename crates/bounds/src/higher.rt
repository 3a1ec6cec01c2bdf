// The higher of two bounds.
ghost use Rattle.std.specs.Prelude.{◌&&◌};
ghost use Rattle.bounds.specs.Piles.{higher_estimate, higher_share};

use crate::bound::Bound;
use crate::theorems::piles_are_sound;
use costs::{Estimate, Tally};
use facts::FactSet;
use tasks::Task;

// It fits where both fit; its estimates and shares are the larger of theirs.
#[derive(Drop)]
pub struct Higher<A, B> {
    pub one: A,
    pub other: B,
}

impl<A: Bound, B: Bound<Value = A::Value>> Bound for Higher<A, B> {
    type Value = A::Value;

    ghost fitting = { λ b t. A.Bound.fitting b.one t && B.Bound.fitting b.other t };

    ghost estimated = { λ b. higher_estimate A.Value.Tally (A.Bound.estimated b.one) (B.Bound.estimated b.other) };

    ghost shared = { λ b. higher_share A.Value.Tally (A.Bound.shared b.one) (B.Bound.shared b.other) };

    fn fits(&self, task: &Task<'_>) -> bool {
        // does nothing: it brings the theorem by which the two laws hold
        piles_are_sound::<A::Value>();
        self.one.fits(task) & self.other.fits(task)
    }

    fn estimate(&self, set: FactSet) -> Estimate<A::Value> {
        self.one.estimate(set).larger(self.other.estimate(set))
    }

    fn share(&self, number: u16) -> A::Value {
        self.one.share(number).larger(self.other.share(number))
    }
}
