// Settling the places of a table, the cheapest first.
ghost use Rattle.std.specs.Prelude.{◌≡◌, ◌<◌, ◌≤◌, length};
ghost use Rattle.tables.specs.Laid.{Known};
ghost use Rattle.tables.specs.Origins.{setting_in};
ghost use Rattle.tables.specs.Settling.{LowersAt, Picks, Begun, Before, Turned, touches};
ghost use Rattle.tables.specs.Nets.{place_of};
ghost use Rattle.tables.specs.Worked.{WorkedOut};

use crate::layout::Layout;
use crate::origin::Origin;
use costs::{Estimate, Tally};

// Lowers the place of this number to `offer` where that is less.
pub fn lower_at<V: Tally>(table: &mut [Estimate<V>], number: usize, offer: Estimate<V>)
    requires { number < length table.old }
    ensures { LowersAt V.Tally number offer table.old table.new }
{
    table[number] = table[number].smaller(offer);
}

// The number of the open place of least value; none if no open place has a value.
fn cheapest<V: Tally>(done: &[bool], table: &[Estimate<V>]) -> Option<usize>
    requires { length table.now ≤ length done.now }
    ensures { Picks V.Tally done.now table.now result }
{
    let mut best: Estimate<V> = None;
    let mut chosen = 0;
    // a zip of the two was tried: the proof then has the iterators' names alone
    for (number, value) in table.iter().enumerate() {
        if !done[number] && !best.at_most(*value) {
            best = *value;
            chosen = number;
        }
    }
    best.map(|_| chosen)
}

// Nil at the sets within the start, never elsewhere.
fn begin<L: Layout<V>, V: Tally>(origin: &Origin<'_>, table: &mut [Estimate<V>])
    requires { length table.old ≡ (L.Layout.net (setting_in origin.now)).count }
    ensures { Begun V.Tally (L.Layout.net (setting_in origin.now)) table.new }
{
    for (number, value) in table.iter_mut().enumerate() {
        *value = if L::is_start(L::place(number, origin), origin) {
            Estimate::<V>::nil()
        } else {
            None
        };
    }
}

// Takes all moves in turn.
fn take_all<L: Layout<V>, V: Tally>(
    origin: &Origin<'_>,
    settled: Option<L::Place>,
    table: &mut [Estimate<V>],
)
    requires { length table.old ≡ (L.Layout.net (setting_in origin.now)).count }
    ensures { Turned V.Tally (L.Layout.net (setting_in origin.now)) (λ t. touches ((L.Layout.net (setting_in origin.now)).inside t) settled) (Before 0) (Before (length origin.now.moves.now)) (place_of (L.Layout.net (setting_in origin.now)) table.old) (place_of (L.Layout.net (setting_in origin.now)) table.new) }
{
    for m in origin.moves {
        L::take(origin, m, settled, table);
    }
}

// Settles the places, the cheapest first.
pub fn settle<L: Layout<V>, V: Tally>(origin: &Origin<'_>, table: &mut [Estimate<V>])
    requires known { Known (setting_in origin.now) }
    requires whole { length table.old ≡ (L.Layout.net (setting_in origin.now)).count }
    ensures { WorkedOut V.Tally (L.Layout.net (setting_in origin.now)) table.new }
{
    // does nothing: it brings what holds of the places
    L::is_laid();
    begin::<L, V>(origin, table);
    take_all::<L, V>(origin, None, table);
    // which places are settled, beside a table that is lent and has no room for it
    let mut done = [false; 4096];
    while let Some(chosen) = cheapest(&done, table) {
        done[chosen] = true;
        take_all::<L, V>(origin, Some(L::place(chosen, origin)), table);
    }
}
