// A whole program that searches, from the bytes that it is handed to the text that it prints.
ghost use Rattle.std.specs.Prelude.{IfOk, MatchResult, string_bytes};
ghost use Rattle.texts.specs.Refusals.{Refuses};
ghost use Rattle.solutions.specs.Responses.{Response, Solves};

use crate::answer::answer_text;
use crate::finding::search;
use costs::Minutes;
use std::alloc::{AllocError, Global};
use tasks::Move;
use texts::{Refused, read_task, room};
use theory::Reply;

// The answer to a task file.
pub fn respond(heap: Global, bytes: &[u8]) -> Result<String, AllocError>
    ensures { IfOk result (λ text. Response bytes.now (string_bytes text)) }
{
    let mut moves = room();
    // lent to the search, which fills its front and tells how far
    let mut list = [0; 1024];
    match solve(bytes, &mut moves, &mut list) {
        Ok(reply) => answer_text(heap, &reply, &list[..usize::from(reply.length)]),
        Err(refused) => refused.to_string(heap),
    }
}

// What the search tells of the task that the bytes say, the moves of a plan in the front of the list, or why they are refused.
fn solve(
    bytes: &[u8],
    moves: &mut [Move; 1024],
    list: &mut [u16; 1024],
) -> Result<Reply<Minutes>, Refused>
    ensures { MatchResult result (Solves bytes.now list.old list.new) (Refuses bytes.now) }
{
    let (_, task) = read_task(bytes, moves)?;
    Ok(search(task, list))
}
