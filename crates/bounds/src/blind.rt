// The bound that knows nothing.
ghost use Rattle.std.specs.Prelude.{true, Some};

use crate::bound::Bound;
use costs::{Estimate, Tally};
use facts::FactSet;
use std::marker::PhantomData;
use tasks::Task;

// It fits every task; all its estimates and shares are nil.
#[derive(Clone, Copy)]
pub struct Blind<V> {
    pub of: PhantomData<V>,
}

impl<V: Tally> Bound for Blind<V> {
    type Value = V;

    ghost fitting = { λ b t. true };

    ghost estimated = { λ b s. Some V.Tally.nil };

    ghost shared = { λ b k. V.Tally.nil };

    fn fits(&self, _task: &Task<'_>) -> bool {
        true
    }

    fn estimate(&self, _set: FactSet) -> Estimate<V> {
        Estimate::<V>::nil()
    }

    fn share(&self, _number: u16) -> V {
        V::nil()
    }
}
