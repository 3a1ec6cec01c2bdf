// One place for each fact: place p has the estimate of the set of fact p.
ghost use Rattle.std.specs.Prelude.{◌≡◌, ◌↔◌, ℕ, ◌<◌, T, IsTrue, length};
ghost use Rattle.facts.specs.Sets.{has};
ghost use Rattle.costs.specs.Estimates.{not_above};
ghost use Rattle.bounds.specs.Sound.{NotAbove};
ghost use Rattle.tables.specs.Nets.{singles, Present, place_of, estimate_by};
ghost use Rattle.tables.specs.Origins.{setting_in, single_values};
ghost use Rattle.tables.specs.Reading.{Top};
ghost use Rattle.tables.specs.Settling.{Lowers, Takes, touches};

use crate::layout::Layout;
use crate::origin::Origin;
use crate::places::Places;
use crate::settling::lower_at;
use costs::{Estimate, Tally};
use facts::FactSet;
use tasks::Move;

// The layout of a single table.
#[derive(Clone, Copy)]
pub struct One;

impl<V: Tally> Layout<V> for One {
    type Place = u8;

    ghost net = { singles V.Tally };

    fn count(facts: u8) -> usize {
        usize::from(facts)
    }

    fn place(number: usize, origin: &Origin<'_>) -> u8 {
        // read so that its range is known
        let _facts = origin.facts;
        number as u8
    }

    fn is_start(place: u8, origin: &Origin<'_>) -> bool {
        origin.start.has(place)
    }

    fn estimate(places: &Places<'_, '_, V>, set: FactSet) -> Estimate<V> {
        places.highest_single(set)
    }

    fn is_at_most(places: &Places<'_, '_, V>, set: FactSet, limit: Estimate<V>) -> bool
        ensures { result ≡ not_above V.Tally.at_most (estimate_by (singles V.Tally (setting_in places.now.origin)) places.now.table.now set) limit }
    {
        places.singles_within(set, limit)
    }

    fn take(origin: &Origin<'_>, m: &Move, settled: Option<u8>, table: &mut [Estimate<V>])
        requires { length table.old ≡ origin.now.facts }
        ensures { Takes V.Tally (singles V.Tally (setting_in origin.now)) m.now settled table.old table.new }
    {
        if !is_touched(m.needs, settled) {
            return;
        }
        let places = Places {
            origin: *origin,
            table,
        };
        let offer = origin.offer(m, places.highest_single(m.needs));
        lower_singles(table, origin, m.makes.without(m.breaks), offer);
    }

    fn keeps_move(places: &Places<'_, '_, V>, m: &Move) -> bool {
        let offer = places.origin.offer(m, places.highest_single(m.needs));
        places.singles_within(m.makes.without(m.breaks), offer)
    }

    fn keeps_further(_places: &Places<'_, '_, V>) -> bool {
        true
    }

    fn is_laid() {}
}

impl<V: Tally> Places<'_, '_, V> {
    // The place of fact p; a missing place is never.
    // Apart from `pair`: one function of any layout, called from a layout's own, would stand in a cycle of calls, as at `lower_single`.
    fn single(&self, p: u8) -> Estimate<V>
        ensures { result ≡ single_values V.Tally self.now p }
    {
        if p < self.origin.facts {
            self.at(usize::from(p))
        } else {
            None
        }
    }

    // The highest of the places of the set's facts, nil for the empty set.
    // Apart from `row`: the loops differ in the place read, and a closure for that would have to tell its places in the contract.
    fn highest_single(&self, set: FactSet) -> Estimate<V>
        ensures { Top V.Tally (λ p. T (has set p)) (single_values V.Tally self.now) result }
    {
        let mut top = Estimate::<V>::nil();
        for fact in set.iter() {
            top = top.larger(self.single(fact));
        }
        top
    }

    // Whether the place of each fact of the set is at most the limit; the first that is above it ends the search.
    // Apart from `column_within`, as `highest_single` is from `row`.
    fn singles_within(&self, set: FactSet, limit: Estimate<V>) -> bool
        ensures { IsTrue result ↔ ((p : ℕ) → T (has set p) → NotAbove V.Tally (single_values V.Tally self.now p) limit) }
    {
        for fact in set.iter() {
            if !self.single(fact).at_most(limit) {
                return false;
            }
        }
        true
    }
}

// Whether the place just settled is among the needs; at first, every move is taken.
fn is_touched(needs: FactSet, settled: Option<u8>) -> bool
    ensures { result ≡ touches (has needs) settled }
{
    settled.is_none_or(|fact| needs.has(fact))
}

// Lowers the places of the facts to `offer` where that is less; a missing place stays.
// Apart from `lower_pairs`, which has a second fact and lowers two places for each head.
fn lower_singles<V: Tally>(
    table: &mut [Estimate<V>],
    origin: &Origin<'_>,
    set: FactSet,
    offer: Estimate<V>,
)
    requires { length table.old ≡ origin.now.facts }
    ensures { Lowers V.Tally (λ k. Present (singles V.Tally (setting_in origin.now)) k × T (has set k)) offer (place_of (singles V.Tally (setting_in origin.now)) table.old) (place_of (singles V.Tally (setting_in origin.now)) table.new) }
{
    for fact in set.iter() {
        lower_single(table, origin, fact, offer);
    }
}

// Lowers the place of fact p.
// Apart from `lower_pair`: one function of any layout was tried, but called from a layout's own it stands in a cycle of calls.
fn lower_single<V: Tally>(table: &mut [Estimate<V>], origin: &Origin<'_>, p: u8, offer: Estimate<V>)
    requires { length table.old ≡ origin.now.facts }
    ensures { Lowers V.Tally (λ k. Present (singles V.Tally (setting_in origin.now)) k × (k ≡ p)) offer (place_of (singles V.Tally (setting_in origin.now)) table.old) (place_of (singles V.Tally (setting_in origin.now)) table.new) }
{
    if p < origin.facts {
        lower_at(table, usize::from(p), offer);
    }
}
