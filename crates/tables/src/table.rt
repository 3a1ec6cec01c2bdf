// The bound that reads a table.
ghost use Rattle.std.specs.Prelude.{◌≡◌, ◌↔◌, T, IsTrue};
ghost use Rattle.std.specs.List.{list_all};
ghost use Rattle.bounds.specs.Sound.{Sound};
ghost use Rattle.tables.specs.Equation.{setting_of};
ghost use Rattle.tables.specs.Nets.{place_of, estimate_by};
ghost use Rattle.tables.specs.Origins.{setting_in};
ghost use Rattle.tables.specs.Reading.{share_at};
ghost use Rattle.tables.specs.Rules.{keeps, fits, Rules, Fits};

use crate::layout::Layout;
use crate::one::One;
use crate::origin::Origin;
use crate::places::Places;
use crate::two::Two;
use bounds::Bound;
use costs::{Estimate, Tally};
use facts::FactSet;
use std::marker::PhantomData;
use tasks::Task;

// A table, and what it was worked out from.
#[derive(Clone, Copy)]
pub struct Table<'t, 'a, V, L> {
    places: Places<'t, 'a, V>,
    of: PhantomData<L>,
}

// The bound over a single table.
pub type Single<'t, 'a, V> = Table<'t, 'a, V, One>;

// The bound over a pair table.
pub type Pair<'t, 'a, V> = Table<'t, 'a, V, Two>;

impl<'t, 'a, V: Tally, L: Layout<V>> Table<'t, 'a, V, L> {
    pub fn of(task: &Task<'t>, groups: u8, table: &'a [Estimate<V>]) -> Table<'t, 'a, V, L>
        ensures { (setting_in result.places.origin ≡ setting_of task.now groups) × (result.places.table.now ≡ table.now) }
    {
        Table {
            places: Places {
                origin: Origin::of(task, groups),
                table,
            },
            of: PhantomData,
        }
    }

    // Whether the sets that moves regress are at most what they offer for them.
    fn keeps_moves(&self) -> bool
        ensures { result ≡ list_all ((L.Layout.net (setting_in self.now.places.origin)).keeps_move (place_of (L.Layout.net (setting_in self.now.places.origin)) self.now.places.table.now)) self.now.places.origin.moves.now }
    {
        let places = &self.places;
        places.origin.moves.iter().all(|m| L::keeps_move(places, m))
    }

    // Whether the table keeps the rules.
    fn keeps_rules(&self) -> bool
        ensures { result ≡ keeps V.Tally (L.Layout.net (setting_in self.now.places.origin)) (place_of (L.Layout.net (setting_in self.now.places.origin)) self.now.places.table.now) }
    {
        self.keeps_moves()
            && L::is_at_most(&self.places, self.places.origin.start, Estimate::<V>::nil())
            && L::keeps_further(&self.places)
    }
}

impl<'t, 'a, V: Tally, L: Layout<V>> Bound for Table<'t, 'a, V, L> {
    type Value = V;

    ghost fitting = { λ b. fits V.Tally (L.Layout.net (setting_in b.places.origin)) (place_of (L.Layout.net (setting_in b.places.origin)) b.places.table.now) };

    ghost estimated = { λ b. estimate_by (L.Layout.net (setting_in b.places.origin)) b.places.table.now };

    ghost shared = { λ b. share_at V.Tally b.places.origin.groups b.places.origin.moves.now };

    fn fits(&self, task: &Task<'_>) -> bool
        ensures told { result ≡ fits V.Tally (L.Layout.net (setting_in self.now.places.origin)) (place_of (L.Layout.net (setting_in self.now.places.origin)) self.now.places.table.now) task.now }
        ensures sound { T result → Sound V.Tally task.now (estimate_by (L.Layout.net (setting_in self.now.places.origin)) self.now.places.table.now) (share_at V.Tally self.now.places.origin.groups self.now.places.origin.moves.now) }
        ensures exact { IsTrue result ↔ Fits V.Tally (L.Layout.net (setting_in self.now.places.origin)) (place_of (L.Layout.net (setting_in self.now.places.origin)) self.now.places.table.now) task.now }
    {
        // does nothing: it brings what holds of the places
        L::is_laid();
        self.places.origin.is_of(task) && self.keeps_rules()
    }

    fn estimate(&self, set: FactSet) -> Estimate<V> {
        L::estimate(&self.places, set)
    }

    fn share(&self, number: u16) -> V {
        self.places.origin.share(number)
    }
}
