// The whole program, from the bytes that it is handed to the text that it prints.
ghost use Rattle.std.specs.Prelude.{IfOk, string_bytes};
ghost use Rattle.answers.specs.Responses.{Response};

use crate::accepted::accepted_text;
use crate::floors::floor_of;
use std::alloc::{AllocError, Global};
use texts::{read_task, room};

// The answer to a task file.
pub fn respond(heap: Global, bytes: &[u8]) -> Result<String, AllocError>
    ensures { IfOk result (λ text. Response bytes.now (string_bytes text)) }
{
    let mut moves = room();
    match read_task(bytes, &mut moves) {
        Ok((draft, task)) => accepted_text(heap, &draft, floor_of(&task)),
        Err(refused) => refused.to_string(heap),
    }
}
