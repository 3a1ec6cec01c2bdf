// Why a file is refused, and how that is printed.
ghost use Rattle.std.specs.Prelude.{◌≡◌, Some};
ghost use Rattle.texts.specs.Refusals.{of_misread, of_fault, text_of_refusal, text_of_refused};

use std::fmt;
use taskfile::Misread;
use tasks::Fault;

#[derive(Clone, Copy, PartialEq, Eq, Debug)]
pub enum Refused {
    // the bytes are no task file
    File(Misread),
    // the draft that they say has a fault
    Draft(Fault),
}

impl From<Misread> for Refused {
    ghost from_gives = { λ misread refused. refused ≡ of_misread misread };

    fn from(misread: Misread) -> Refused {
        Refused::File(misread)
    }
}

impl From<Fault> for Refused {
    ghost from_gives = { λ fault refused. refused ≡ of_fault fault };

    fn from(fault: Fault) -> Refused {
        Refused::Draft(fault)
    }
}

// A refusal by its number, and the line of the file at fault, 0 where it is none.
#[derive(Clone, Copy, PartialEq, Eq, Debug)]
pub struct NumberAndLine {
    pub number: u16,
    pub line: u32,
}

impl fmt::Display for NumberAndLine {
    ghost output = { λ told. Some (text_of_refusal told.number told.line) };

    fn fmt<W: fmt::Write>(&self, f: &mut fmt::Formatter<W>) -> fmt::Result {
        let number = self.number;
        let line = self.line;
        write!(f, "answer=refused\nnumber={number}\nline={line}\n")
    }
}

impl fmt::Display for Refused {
    ghost output = { λ refused. Some (text_of_refused refused) };

    fn fmt<W: fmt::Write>(&self, f: &mut fmt::Formatter<W>) -> fmt::Result {
        let (number, line) = match *self {
            Refused::File(misread) => (misread.flaw.number(), misread.line),
            Refused::Draft(fault) => (fault.refusal.number(), 0),
        };
        let told = NumberAndLine { number, line };
        write!(f, "{told}")
    }
}
