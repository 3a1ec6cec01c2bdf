// What a run tells as text, a line for each thing told.
ghost use Rattle.std.specs.Prelude.{◌≡◌, IfOk, string_bytes};
ghost use Rattle.solutions.specs.Texts.{text_of_answer};

use costs::Minutes;
use std::alloc::{AllocError, Global};
use texts::moves_text;
use theory::{Kind, Reply};

// What a run tells, with the moves of its plan.
// No Display: a list is joined on the heap, which `fmt` is not handed.
pub fn answer_text(
    heap: Global,
    reply: &Reply<Minutes>,
    moves: &[u16],
) -> Result<String, AllocError>
    ensures { IfOk result (λ text. string_bytes text ≡ text_of_answer reply.now moves.now) }
{
    let value = reply.value.total;
    let length = reply.length;
    let opened = reply.opened;
    match reply.kind {
        Kind::Plan => {
            let list = moves_text(heap, moves)?;
            format!(in heap;
                "answer=plan\ncost={value}\nlength={length}\nmoves={list}\nopened={opened}\n"
            )
        }
        Kind::NoPlan => format!(in heap; "answer=none\nopened={opened}\n"),
        Kind::Full => format!(in heap; "answer=full\nfloor={value}\nopened={opened}\n"),
        Kind::Pending => format!(in heap; "answer=pending\nfloor={value}\nopened={opened}\n"),
    }
}
