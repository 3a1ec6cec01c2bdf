// What the value of a line is read as.
ghost use Rattle.std.specs.Prelude.{◌≡◌, Bool};
ghost use Rattle.taskfile.specs.Entries.{Entry};
ghost use Rattle.taskfile.specs.Keys.{one_number};
ghost use Rattle.taskfile.specs.Values.{is_number, written, ReadAs};

use crate::keys::{Key, Value};
use crate::misread::Flaw;

// A number or a set, as a line tells it.
pub trait FromValue: Drop {
    // whether it is one number
    ghost single: { Bool };

    // which entries tell it
    ghost tells: { Self → Entry → Type 0 };

    fn from_value(key: Key, value: Value<'_>) -> Result<Self, Flaw>
        requires key_kind { one_number key ≡ single }
        requires value_kind { is_number value ≡ single }
        ensures { ReadAs tells key (written value.entry) result };
}
