// Why a file is turned down, and at which line.
ghost use Rattle.std.specs.Prelude.{◌≡◌};
ghost use Rattle.taskfile.specs.Flaws.{number_of};

#[derive(Clone, Copy, PartialEq, Eq, Debug)]
pub enum Flaw {
    // the line that is due is not there, or bytes follow the last line
    WrongLine = 1,
    // the value is not well formed
    Malformed = 2,
    // the value is out of range, or the file is too long
    OutOfRange = 3,
    // the list handed in is too short for the moves
    TooManyMoves = 4,
}

impl Flaw {
    pub fn number(self) -> u16
        ensures { result ≡ number_of self }
    {
        self as u16
    }
}

#[derive(Clone, Copy, PartialEq, Eq, Debug)]
pub struct Misread {
    pub flaw: Flaw,
    // counted from 1; 0 for the file itself, as it is told
    pub line: u32,
}
