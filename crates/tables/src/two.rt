// A place for each two facts: place p × F + q has the estimate of the set of p and q.
ghost use Rattle.std.specs.Prelude.{◌≡◌, ◌↔◌, ℕ, ◌*◌, ◌+◌, ◌<◌, ◌≤◌, ◌&&◌, T, IsTrue, ◌⊎◌, length};
ghost use Rattle.facts.specs.Sets.{has};
ghost use Rattle.costs.specs.Estimates.{not_above};
ghost use Rattle.bounds.specs.Sound.{NotAbove};
ghost use Rattle.tables.specs.Nets.{pairs, Present, place_of, estimate_by, every, besides, UnderOffer, agrees_at};
ghost use Rattle.tables.specs.Origins.{setting_in, pair_values};
ghost use Rattle.tables.specs.Reading.{Top};
ghost use Rattle.tables.specs.Settling.{Lowers, Beside, Takes, touches, both};

use crate::layout::Layout;
use crate::origin::Origin;
use crate::places::Places;
use crate::settling::lower_at;
use costs::{Estimate, Tally};
use facts::FactSet;
use std::ops::Range;
use tasks::Move;

// The layout of a pair table.
#[derive(Clone, Copy)]
pub struct Two;

impl<V: Tally> Layout<V> for Two {
    type Place = (u8, u8);

    ghost net = { pairs V.Tally };

    fn count(facts: u8) -> usize {
        usize::from(facts) * usize::from(facts)
    }

    fn place(number: usize, origin: &Origin<'_>) -> (u8, u8) {
        let facts = usize::from(origin.facts);
        ((number / facts) as u8, (number % facts) as u8)
    }

    fn is_start(place: (u8, u8), origin: &Origin<'_>) -> bool {
        origin.start.has(place.0) & origin.start.has(place.1)
    }

    fn estimate(places: &Places<'_, '_, V>, set: FactSet) -> Estimate<V> {
        places.highest_pair(set)
    }

    fn is_at_most(places: &Places<'_, '_, V>, set: FactSet, limit: Estimate<V>) -> bool
        ensures { result ≡ not_above V.Tally.at_most (estimate_by (pairs V.Tally (setting_in places.now.origin)) places.now.table.now set) limit }
    {
        places.pairs_within(set, limit)
    }

    fn take(origin: &Origin<'_>, m: &Move, settled: Option<(u8, u8)>, table: &mut [Estimate<V>])
        requires { length table.old ≡ origin.now.facts * origin.now.facts }
        ensures { Takes V.Tally (pairs V.Tally (setting_in origin.now)) m.now settled table.old table.new }
    {
        let others = concerned(m, origin.facts, settled);
        if others.is_empty() {
            return;
        }
        let heads = m.makes.without(m.breaks);
        // without a head nothing is lowered, so that its needs are not looked up
        if heads.is_within(FactSet::empty()) {
            return;
        }
        let places = Places {
            origin: *origin,
            table,
        };
        let base = places.highest_pair(m.needs);
        // where its needs are never met, the move offers nothing
        if let None = base {
            return;
        }
        for r in others {
            if !m.breaks.has(r) {
                let places = Places {
                    origin: *origin,
                    table,
                };
                let offer = origin.offer(m, places.with_beside(m, base, r));
                lower_pairs(table, origin, heads, r, offer);
            }
        }
    }

    fn keeps_move(places: &Places<'_, '_, V>, m: &Move) -> bool {
        let base = places.highest_pair(m.needs);
        // each head alone too, since one past the table is beside none of its facts
        places.keeps_all_beside(m, base)
            && places.alone_within(m.makes.without(m.breaks), places.origin.offer(m, base))
    }

    fn keeps_further(places: &Places<'_, '_, V>) -> bool {
        places.agrees()
    }

    fn is_laid() {}
}

impl<V: Tally> Places<'_, '_, V> {
    // The place of p and q; a missing place is never.
    fn pair(&self, p: u8, q: u8) -> Estimate<V>
        ensures { result ≡ pair_values V.Tally self.now (p, q) }
    {
        let facts = self.origin.facts;
        if (p < facts) & (q < facts) {
            self.at(number_of(facts, p, q))
        } else {
            None
        }
    }

    // The highest of the places of p with the set's facts, nil if there is none.
    fn row(&self, p: u8, set: FactSet) -> Estimate<V>
        ensures { Top V.Tally (λ k. (k.0 ≡ p) × T (has set k.1)) (pair_values V.Tally self.now) result }
    {
        let mut top = Estimate::<V>::nil();
        for q in set.iter() {
            top = top.larger(self.pair(p, q));
        }
        top
    }

    // The highest of the places of two facts of the set, nil for the empty set.
    fn highest_pair(&self, set: FactSet) -> Estimate<V>
        ensures { Top V.Tally (λ k. T (has set k.0) × T (has set k.1)) (pair_values V.Tally self.now) result }
    {
        let mut top = Estimate::<V>::nil();
        for p in set.iter() {
            top = top.larger(self.row(p, set));
        }
        top
    }

    // The highest of the places of r with the set's facts and with itself, either way round.
    fn beside(&self, r: u8, set: FactSet) -> Estimate<V>
        ensures { Top V.Tally (λ k. ((k.0 ≡ r) × ((k.1 ≡ r) ⊎ T (has set k.1))) ⊎ ((k.1 ≡ r) × T (has set k.0))) (pair_values V.Tally self.now) result }
    {
        let mut top = self.pair(r, r);
        for p in set.iter() {
            top = top.larger(self.pair(p, r));
            top = top.larger(self.pair(r, p));
        }
        top
    }

    // The estimate of what the move needs for a fact that it makes together with r, where `base` is that of its needs.
    fn with_beside(&self, m: &Move, base: Estimate<V>, r: u8) -> Estimate<V>
        requires { Top V.Tally (λ k. T (has m.now.needs k.0) × T (has m.now.needs k.1)) (pair_values V.Tally self.now) base }
        ensures { Top V.Tally (λ k. T (besides m.now r k.0) × T (besides m.now r k.1)) (pair_values V.Tally self.now) result }
    {
        if m.makes.has(r) | m.needs.has(r) {
            base
        } else {
            base.larger(self.beside(r, m.needs))
        }
    }

    // Whether the places of the set's facts with r are at most the limit; the first that is above it ends the search.
    fn column_within(&self, set: FactSet, r: u8, limit: Estimate<V>) -> bool
        ensures { IsTrue result ↔ ((p : ℕ) → T (has set p) → NotAbove V.Tally (pair_values V.Tally self.now (p, r)) limit) }
    {
        for p in set.iter() {
            if !self.pair(p, r).at_most(limit) {
                return false;
            }
        }
        true
    }

    // Whether the places of two facts of the set are at most the limit, column by column.
    fn pairs_within(&self, set: FactSet, limit: Estimate<V>) -> bool
        ensures { IsTrue result ↔ ((r : ℕ) → T (has set r) → (p : ℕ) → T (has set p) → NotAbove V.Tally (pair_values V.Tally self.now (p, r)) limit) }
    {
        for r in set.iter() {
            if !self.column_within(set, r, limit) {
                return false;
            }
        }
        true
    }

    // Whether the single of each fact of the set is at most the limit.
    // Apart from `column_within`: the place read differs, as between `row` and `highest_single`.
    fn alone_within(&self, set: FactSet, limit: Estimate<V>) -> bool
        ensures { IsTrue result ↔ ((p : ℕ) → T (has set p) → NotAbove V.Tally (pair_values V.Tally self.now (p, p)) limit) }
    {
        for p in set.iter() {
            if !self.pair(p, p).at_most(limit) {
                return false;
            }
        }
        true
    }

    // Whether the heads of the move beside every fact that it does not break are at most what it offers for them.
    fn keeps_all_beside(&self, m: &Move, base: Estimate<V>) -> bool
        requires { Top V.Tally (λ k. T (has m.now.needs k.0) × T (has m.now.needs k.1)) (pair_values V.Tally self.now) base }
        ensures { IsTrue result ↔ ((r : ℕ) → r < self.now.origin.facts → (T (has m.now.breaks r) → ⊥) → UnderOffer V.Tally (setting_in self.now.origin) (pair_values V.Tally self.now) m.now r) }
    {
        let heads = m.makes.without(m.breaks);
        // a loop, since `all` over a range leaves the clause open
        for r in 0..self.origin.facts {
            if m.breaks.has(r) {
                continue;
            }
            let offer = self.origin.offer(m, self.with_beside(m, base, r));
            if !self.column_within(heads, r, offer) {
                return false;
            }
        }
        true
    }

    // Whether the single of p is at most each pair with it, and each such pair at most itself the other way round.
    fn row_agrees(&self, p: u8) -> bool
        ensures { result ≡ every self.now.origin.facts (agrees_at V.Tally (pair_values V.Tally self.now) p) }
    {
        let single = self.pair(p, p);
        // a loop, since `all` over a range leaves the clause open
        for q in 0..self.origin.facts {
            let pair = self.pair(p, q);
            if !(single.at_most(pair) & pair.at_most(self.pair(q, p))) {
                return false;
            }
        }
        true
    }

    // Whether each single is at most each pair with it, and each pair the same either way round.
    fn agrees(&self) -> bool
        ensures { result ≡ every self.now.origin.facts (λ p. every self.now.origin.facts (agrees_at V.Tally (pair_values V.Tally self.now) p)) }
    {
        // a loop, since `all` over a range leaves the clause open
        for p in 0..self.origin.facts {
            if !self.row_agrees(p) {
                return false;
            }
        }
        true
    }
}

// The number of the place of p and q.
fn number_of(facts: u8, p: u8, q: u8) -> usize
    ensures { result ≡ p * facts + q }
{
    usize::from(p) * usize::from(facts) + usize::from(q)
}

// x, if that is a fact that the move neither makes nor breaks.
fn unmade(m: &Move, facts: u8, x: u8) -> Range<u8>
    ensures within { result.end ≤ facts }
    ensures told { (r : ℕ) → r < facts → (T (has m.now.breaks r) → ⊥) → ((result.start ≤ r) × (r < result.end)) ↔ ((r ≡ x) × (T (has m.now.makes r) → ⊥)) }
{
    if x < facts && !m.makes.has(x) && !m.breaks.has(x) {
        x..x + 1
    } else {
        0..0
    }
}

// The facts r, of those that the move does not break, beside which its needs have the pair just settled; at first, all.
// Others in the range are broken.
fn concerned(m: &Move, facts: u8, settled: Option<(u8, u8)>) -> Range<u8>
    ensures within { result.end ≤ facts }
    ensures told { (r : ℕ) → r < facts → (T (has m.now.breaks r) → ⊥) → ((result.start ≤ r) × (r < result.end)) ↔ T (touches (both (besides m.now r)) settled) }
{
    let Some((p, q)) = settled else {
        return 0..facts;
    };
    match (m.needs.has(p), m.needs.has(q)) {
        (true, true) => 0..facts,
        (true, false) => unmade(m, facts, q),
        (false, true) => unmade(m, facts, p),
        (false, false) if p == q => unmade(m, facts, p),
        (false, false) => 0..0,
    }
}

// Lowers the places of r with each of the heads, either way round, to `offer` where that is less; a missing place stays.
fn lower_pairs<V: Tally>(
    table: &mut [Estimate<V>],
    origin: &Origin<'_>,
    heads: FactSet,
    r: u8,
    offer: Estimate<V>,
)
    requires { length table.old ≡ origin.now.facts * origin.now.facts }
    ensures { Lowers V.Tally (Beside (pairs V.Tally (setting_in origin.now)) heads r) offer (place_of (pairs V.Tally (setting_in origin.now)) table.old) (place_of (pairs V.Tally (setting_in origin.now)) table.new) }
{
    for p in heads.iter() {
        lower_pair(table, origin, p, r, offer);
        lower_pair(table, origin, r, p, offer);
    }
}

// Lowers the place of p and q.
fn lower_pair<V: Tally>(
    table: &mut [Estimate<V>],
    origin: &Origin<'_>,
    p: u8,
    q: u8,
    offer: Estimate<V>,
)
    requires { length table.old ≡ origin.now.facts * origin.now.facts }
    ensures { Lowers V.Tally (λ k. Present (pairs V.Tally (setting_in origin.now)) k × (k ≡ (p, q))) offer (place_of (pairs V.Tally (setting_in origin.now)) table.old) (place_of (pairs V.Tally (setting_in origin.now)) table.new) }
{
    if (p < origin.facts) & (q < origin.facts) {
        lower_at(table, number_of(origin.facts, p, q), offer);
    }
}
