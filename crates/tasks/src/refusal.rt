// Why something is turned down, and the numbers by which that is told.
ghost use Rattle.std.specs.Prelude.{◌≡◌};
ghost use Rattle.tasks.specs.Refusals.{number_of, place_of};

#[derive(Clone, Copy, PartialEq, Eq, Debug)]
pub enum Refusal {
    // a value is out of range
    OutOfRange = 3,
    // a set holds a fact that the draft does not have
    UnknownFact = 5,
    // a move both makes and breaks a fact
    MakesAndBreaks = 6,
}

impl Refusal {
    pub fn number(self) -> u16
        ensures { result ≡ number_of self }
    {
        self as u16
    }
}

// Where a draft is at fault: two kinds of place, of which neither is the lack of one.
#[derive(Clone, Copy, PartialEq, Eq, Debug)]
pub enum Place {
    // the number of facts, the number of moves, the start or the goal
    Heading,
    // the move of this number
    Move(u16),
}

impl Place {
    // The move's number, 65,535 for the draft itself: so it is told outside, and nowhere else.
    pub fn number(self) -> u16
        ensures { result ≡ place_of self }
    {
        match self {
            Place::Heading => 65_535,
            Place::Move(number) => number,
        }
    }
}

#[derive(Clone, Copy, PartialEq, Eq, Debug)]
pub struct Fault {
    pub refusal: Refusal,
    pub place: Place,
}
