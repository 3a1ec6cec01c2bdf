// How the places of a table are laid out: which sets they belong to, and what a move says of them.
ghost use Rattle.std.specs.Prelude.{◌≡◌, ◌<◌, length};
ghost use Rattle.costs.specs.Estimates.{not_above};
ghost use Rattle.tables.specs.Equation.{Setting};
ghost use Rattle.tables.specs.Laid.{Laid};
ghost use Rattle.tables.specs.Nets.{Net, place_of, estimate_by};
ghost use Rattle.tables.specs.Origins.{setting_in};
ghost use Rattle.tables.specs.Settling.{Takes};

use crate::origin::Origin;
use crate::places::Places;
use costs::{Estimate, Tally};
use facts::FactSet;
use tasks::Move;

pub trait Layout<V: Tally> {
    // A place, by its facts.
    type Place: Copy;

    ghost net: { (b : Setting) → Net V b Self.Place };

    // How many places there are.
    fn count(facts: u8) -> usize
        ensures { (b : Setting) → facts ≡ b.facts → result ≡ (net b).count };

    // The place of this number.
    fn place(number: usize, origin: &Origin<'_>) -> Self::Place
        requires { number < (net (setting_in origin.now)).count }
        ensures { result ≡ (net (setting_in origin.now)).place number };

    // Whether the set of the place lies within the start.
    fn is_start(place: Self::Place, origin: &Origin<'_>) -> bool
        ensures { result ≡ (net (setting_in origin.now)).inside origin.now.start place };

    // The highest place among the parts of the set, nil if there is none.
    fn estimate(places: &Places<'_, '_, V>, set: FactSet) -> Estimate<V>
        ensures { result ≡ estimate_by (net (setting_in places.now.origin)) places.now.table.now set };

    // Whether the highest place among the parts of the set is at most the limit.
    // It ends at the first place above the limit, where `estimate` reads them all.
    fn is_at_most(places: &Places<'_, '_, V>, set: FactSet, limit: Estimate<V>) -> bool
        ensures { result ≡ not_above V.Tally.at_most (estimate_by (net (setting_in places.now.origin)) places.now.table.now set) limit };

    // Lowers what the move makes, where its needs have the place just settled; at first, all of that.
    // The table comes bare: a struct whose ghost field counts the places of a layout cannot be passed to that layout's own functions.
    fn take(origin: &Origin<'_>, m: &Move, settled: Option<Self::Place>, table: &mut [Estimate<V>])
        requires { length table.old ≡ (net (setting_in origin.now)).count }
        ensures { Takes V.Tally (net (setting_in origin.now)) m.now settled table.old table.new };

    // Whether the sets that the move regresses are at most what it offers for them.
    fn keeps_move(places: &Places<'_, '_, V>, m: &Move) -> bool
        ensures { result ≡ (net (setting_in places.now.origin)).keeps_move (place_of (net (setting_in places.now.origin)) places.now.table.now) m.now };

    // Whether the places keep what more is asked of them.
    fn keeps_further(places: &Places<'_, '_, V>) -> bool
        ensures { result ≡ (net (setting_in places.now.origin)).keeps_further (place_of (net (setting_in places.now.origin)) places.now.table.now) };

    // Does nothing: it brings what holds of the places.
    fn is_laid()
        ensures { (b : Setting) → Laid V.Tally (net b) };
}
