// What holds of tables beyond the contracts of the functions that make and read them.
ghost use Rattle.tables.specs.Theorems.{GreatestIsSole, WorkedOutTablesFit, SharesAreDrawn};

use crate::layout::Layout;
use costs::Tally;

// There is one greatest solution.
pub fn greatest_is_sole<V: Tally>()
    ensures { GreatestIsSole V.Tally }
{}

// The bound over a table fits the draft for which the table was worked out, and so the task.
pub fn worked_out_tables_fit<L: Layout<V>, V: Tally>()
    ensures { WorkedOutTablesFit V.Tally L.Layout.net }
{}

// The shares of a bound over a table are never above the charges.
pub fn shares_are_drawn<V: Tally>()
    ensures { SharesAreDrawn V.Tally }
{}
