// The draft that a file says, and its task.
ghost use Rattle.std.specs.Prelude.{MatchResult, All};
ghost use Rattle.texts.specs.Files.{IsBlank, Says, SaysTask, Misreads};
ghost use Rattle.texts.specs.Refusals.{Refuses};

use crate::refused::Refused;
use facts::FactSet;
use taskfile::{Misread, read};
use tasks::{Draft, Move, Task, check};

// Places for the moves of a file.
pub fn room() -> [Move; 1024]
    ensures { All IsBlank result }
{
    let none = FactSet::empty();
    let blank = Move {
        group: 0,
        price: 0,
        needs: none,
        makes: none,
        breaks: none,
    };
    [blank; 1024]
}

// The draft that the bytes say, its moves read into the list lent, and its task; or why the bytes are refused.
pub fn read_task<'a>(
    bytes: &[u8],
    moves: &'a mut [Move; 1024],
) -> Result<(Draft<'a>, Task<'a>), Refused>
    ensures { MatchResult result (λ read. SaysTask bytes.now read.0 read.1) (Refuses bytes.now) }
{
    let draft = read_draft(bytes, moves)?;
    let task = check(draft)?;
    Ok((draft, task))
}

// The draft that the bytes say, or why they say none.
fn read_draft<'a>(bytes: &[u8], moves: &'a mut [Move; 1024]) -> Result<Draft<'a>, Misread>
    ensures { MatchResult result (Says bytes.now) (Misreads bytes.now) }
{
    let heading = read(bytes, moves)?;
    Ok(heading.draft(moves).unwrap())
}
