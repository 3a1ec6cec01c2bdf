// Reading a whole file.
ghost use Rattle.std.specs.Prelude.{◌≡◌, ℕ, ◌<◌, ◌≤◌, length, is_ok, Decides, MatchResult};
ghost use Rattle.taskfile.specs.Outcomes.{ByLines, IsText, Only, Outcome};
ghost use Rattle.taskfile.specs.Steps.{StopsBefore, StopsWriting, TooMany, TookHeading, TookMove, TookMoves};
ghost use Rattle.taskfile.specs.Texts.{ReadsBack};

use super::Reader;
use crate::heading::Heading;
use crate::keys::Key;
use crate::misread::{Flaw, Misread};
use tasks::Move;

// A file has at most so many bytes.
const LONGEST: usize = 60_000;

// What the bytes say: the heading, and the moves, which are written to the beginning of the list.
pub fn read(bytes: &[u8], moves: &mut [Move]) -> Result<Heading, Misread>
    ensures outcome { Outcome bytes.now moves.old result moves.new }
    ensures only { Only bytes.now moves.old result moves.new }
    ensures exact { Decides (is_ok result) (IsText (length moves.old) bytes.now) }
    ensures back { ReadsBack bytes.now moves.old result moves.new }
{
    if bytes.len() > LONGEST {
        return Err(Misread {
            flaw: Flaw::OutOfRange,
            line: 0,
        });
    }
    read_short(bytes, moves)
}

// A file that is not too long.
fn read_short(bytes: &[u8], moves: &mut [Move]) -> Result<Heading, Misread>
    requires { length bytes.now ≤ 60000 }
    ensures outcome { Outcome bytes.now moves.old result moves.new }
    ensures only { Only bytes.now moves.old result moves.new }
    ensures exact { Decides (is_ok result) (IsText (length moves.old) bytes.now) }
    ensures back { ReadsBack bytes.now moves.old result moves.new }
{
    read_lines(bytes, moves)
}

// Line by line.
fn read_lines(bytes: &[u8], moves: &mut [Move]) -> Result<Heading, Misread>
    requires { length bytes.now ≤ 60000 }
    ensures { ByLines bytes.now moves.old result moves.new }
{
    let mut reader = Reader {
        expected: Key::Facts,
        rest: bytes,
        line: 1,
    };
    let heading = reader.read_heading(moves.len())?;
    reader.read_moves(&mut moves[..usize::from(heading.count)])?;
    reader.end()?;
    Ok(heading)
}

impl Reader<'_> {
    // The first four lines.
    fn read_heading(&mut self, room: usize) -> Result<Heading, Misread>
        requires expected_value { self.old.expected ≡ Key.Facts }
        requires line_value { self.old.line ≡ 1 }
        ensures { MatchResult result (λ h. TookHeading room self.old h self.new) (StopsBefore room self.old 4) }
    {
        let facts: u32 = self.next()?;
        let count: u32 = self.next()?;
        fit(count, room)?;
        let start = self.next()?;
        let goal = self.next()?;
        // `as` is proved to lose nothing; a `try_from` could fail
        Ok(Heading {
            facts: facts as u8,
            count: count as u16,
            start,
            goal,
        })
    }

    // The moves go to the places of the list, one after another.
    fn read_moves(&mut self, moves: &mut [Move]) -> Result<(), Misread>
        requires { self.old.expected ≡ Key.Group }
        ensures { MatchResult result (λ _. (room : ℕ) → TookMoves room (length moves.old) self.old moves.old moves.new self.new) (λ e. (room : ℕ) → StopsWriting room (length moves.old) self.old moves.old moves.new e) }
    {
        for place in moves.iter_mut() {
            *place = self.read_move()?;
        }
        Ok(())
    }

    // The next five lines.
    fn read_move(&mut self) -> Result<Move, Misread>
        requires { self.old.expected ≡ Key.Group }
        ensures { MatchResult result (λ m. (room : ℕ) → TookMove room self.old m self.new) (λ e. (room : ℕ) → StopsBefore room self.old 5 e) }
    {
        // `as` is proved to lose nothing; a `try_from` could fail
        Ok(Move {
            group: self.next::<u32>()? as u8,
            price: self.next::<u32>()? as u16,
            needs: self.next()?,
            makes: self.next()?,
            breaks: self.next()?,
        })
    }
}

// The second line may tell at most as many moves as there is room for.
fn fit(count: u32, room: usize) -> Result<(), Misread>
    ensures { MatchResult result (λ _. count ≤ room) (λ m. (room < count) × TooMany m) }
{
    if count as usize <= room {
        return Ok(());
    }
    Err(Misread {
        flaw: Flaw::TooManyMoves,
        line: 2,
    })
}
