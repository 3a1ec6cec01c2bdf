// Why a table is turned down.
ghost use Rattle.std.specs.Prelude.{◌≡◌};
ghost use Rattle.tables.specs.Refusals.{too_short};

// The table lent has fewer places than are to be filled.
#[derive(Clone, Copy, PartialEq, Eq)]
pub struct TableTooShort;

impl TableTooShort {
    // The number by which it is told.
    pub fn number(self) -> u16
        ensures { result ≡ too_short }
    {
        7
    }
}
