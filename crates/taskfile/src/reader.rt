// Reading line by line.
ghost use Rattle.std.specs.Prelude.{◌≡◌, ◌+◌, ◌≤◌, length, MatchResult};

use crate::cuts::cut;
use crate::keys::Key::{Breaks, Facts, Goal, Group, Makes, Moves, Needs, Price, Start};
use crate::keys::Value::{Number, Set};
use crate::keys::{Key, Value};
use crate::misread::{Flaw, Misread};
use crate::values::FromValue;

pub mod reading;

// What is left of the file, the key that is due, and the number of its line.
#[derive(Drop)]
struct Reader<'a> {
    expected: Key,
    rest: &'a [u8],
    line: u32,
    // each line has at least its newline
    ghost in_file: { line + length rest.now ≤ 60001 },
}

impl<'a> Reader<'a> {
    ghost use Rattle.taskfile.specs.Keys.{one_number};
    ghost use Rattle.taskfile.specs.Steps.{TookLine, TookAs, NoLine, Stops, LeftOver};

    // The value of the next line, which must have the expected key.
    fn next_value(&mut self) -> Result<Value<'a>, Flaw>
        ensures { MatchResult result (λ v. TookLine self.old v self.new) (λ f. (f ≡ Flaw.WrongLine) × NoLine self.old) }
    {
        let Some((line, rest)) = cut(self.rest, b'\n') else {
            return Err(Flaw::WrongLine);
        };
        let (v, key) = match (self.expected, line) {
            (Facts, [b'f', b'a', b'c', b't', b's', b'=', v @ ..]) => (Number(v), Moves),
            (Moves, [b'm', b'o', b'v', b'e', b's', b'=', v @ ..]) => (Number(v), Start),
            (Start, [b's', b't', b'a', b'r', b't', b'=', v @ ..]) => (Set(v), Goal),
            (Goal, [b'g', b'o', b'a', b'l', b'=', v @ ..]) => (Set(v), Group),
            (Group, [b'g', b'r', b'o', b'u', b'p', b'=', v @ ..]) => (Number(v), Price),
            (Price, [b'p', b'r', b'i', b'c', b'e', b'=', v @ ..]) => (Number(v), Needs),
            (Needs, [b'n', b'e', b'e', b'd', b's', b'=', v @ ..]) => (Set(v), Makes),
            (Makes, [b'm', b'a', b'k', b'e', b's', b'=', v @ ..]) => (Set(v), Breaks),
            (Breaks, [b'b', b'r', b'e', b'a', b'k', b's', b'=', v @ ..]) => (Set(v), Group),
            _ => return Err(Flaw::WrongLine),
        };
        self.expected = key;
        self.rest = rest;
        self.line += 1;
        Ok(v)
    }

    // What the next line tells, or its flaw.
    fn next<T: FromValue>(&mut self) -> Result<T, Misread>
        requires { one_number self.old.expected ≡ T.single }
        ensures { MatchResult result (λ t. TookAs T.tells self.old t self.new) (Stops self.old) }
    {
        let key = self.expected;
        let line = self.line;
        self.next_value()
            .and_then(|value| T::from_value(key, value))
            .map_err(|flaw| Misread { flaw, line })
    }

    // Nothing may follow the last line.
    fn end(&self) -> Result<(), Misread>
        ensures { MatchResult result (λ _. length self.now.rest.now ≡ 0) (LeftOver self.now) }
    {
        if self.rest.is_empty() {
            return Ok(());
        }
        Err(Misread {
            flaw: Flaw::WrongLine,
            line: self.line,
        })
    }
}
