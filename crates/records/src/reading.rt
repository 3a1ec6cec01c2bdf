// One row of the records.
ghost use Rattle.std.specs.Prelude.{◌<◌, length};
ghost use Rattle.tasks.specs.Places.{At};

use costs::Tally;
use theory::Record;

// The record of a number.
pub fn read<V: Tally>(table: &[Record<V>], number: u16) -> Record<V>
    requires { number < length table.now }
    ensures { At table.now number result }
{
    table[usize::from(number)]
}
