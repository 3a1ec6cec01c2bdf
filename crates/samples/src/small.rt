// Moves, and the small task of the documents.
ghost use Rattle.std.specs.Prelude.{◌≡◌, IfOk};
ghost use Rattle.tasks.specs.Tasks.{draft_of as draft_in};
ghost use Rattle.samples.specs.Samples.{IsMove, IsDraft, AreTwoMoves};

use crate::sets::set_of;
use std::test::Fail;
use tasks::{Draft, Move, Task, check};

// A move of group 0 at 1.
pub fn move_of(needs: &[u8], makes: &[u8], breaks: &[u8]) -> Result<Move, Fail>
    ensures { IfOk result (IsMove 0 1 needs.now makes.now breaks.now) }
{
    Ok(Move {
        group: 0,
        price: 1,
        needs: set_of(needs)?,
        makes: set_of(makes)?,
        breaks: set_of(breaks)?,
    })
}

// Move 0 turns fact 0 into fact 1, at 15; move 1, of group 1, makes fact 2, at 4.
pub fn two_moves() -> Result<[Move; 2], Fail>
    ensures { IfOk result AreTwoMoves }
{
    let first = move_of(&[0], &[1], &[0])?;
    let second = move_of(&[], &[2], &[])?;
    Ok([
        Move { price: 15, ..first },
        Move {
            price: 4,
            group: 1,
            ..second
        },
    ])
}

// From fact 0 to facts 1 and 2.
pub fn draft_of(moves: &[Move]) -> Result<Draft<'_>, Fail>
    ensures { IfOk result (IsDraft moves.now) }
{
    Ok(Draft {
        facts: 3,
        start: set_of(&[0])?,
        goal: set_of(&[1, 2])?,
        moves,
    })
}

// The task of a draft that passes the check.
pub fn task_of(draft: Draft<'_>) -> Result<Task<'_>, Fail>
    ensures { IfOk result (λ task. draft_in task ≡ draft.entry) }
{
    Ok(check(draft).map_err(|_| "refused")?)
}
