// A table, lent since there is no heap for it, with what it was worked out from.
ghost use Rattle.std.specs.Prelude.{◌≡◌, slice_index_or};

use crate::origin::Origin;
use costs::{Estimate, Tally};

#[derive(Clone, Copy)]
pub struct Places<'t, 'a, V> {
    pub origin: Origin<'t>,
    pub table: &'a [Estimate<V>],
}

impl<V: Tally> Places<'_, '_, V> {
    // What stands at this number; a missing place is never.
    pub fn at(&self, number: usize) -> Estimate<V>
        ensures { result ≡ slice_index_or self.now.table.now number None }
    {
        self.table.get(number).copied().flatten()
    }
}
