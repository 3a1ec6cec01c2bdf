// Why a call is turned down, and the numbers by which that is told.
ghost use Rattle.std.specs.Prelude.{◌≡◌};
ghost use Rattle.theory.specs.Refusals.{number_of};

#[derive(Clone, Copy, PartialEq, Eq, Debug)]
pub enum Refusal {
    // the table has no place, or more than 65,535
    TableSize = 8,
    // the bound does not fit the task
    Misfit = 9,
    // the bound is overdrawn: some move's share is above its charge
    Overdrawn = 10,
    // the grant is above 65,536
    GrantTooLarge = 11,
    // the search has not ended with a plan
    NotPlanned = 12,
    // the list lent has fewer places than the plan has moves
    ListTooShort = 13,
}

impl Refusal {
    pub fn number(self) -> u16
        ensures { result ≡ number_of self }
    {
        self as u16
    }
}
