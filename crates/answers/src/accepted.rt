// The answer to a task, a line for each thing told.
ghost use Rattle.std.specs.Prelude.{IfOk, string_bytes};
ghost use Rattle.answers.specs.Texts.{AcceptedText};

use crate::floors::Floor;
use costs::{Estimate, Minutes};
use std::alloc::{AllocError, Global};
use tasks::Draft;
use texts::set_text;

// The heading of a draft, as a file has it, and the floor of its goal.
// No Display: a list is joined on the heap, which `fmt` is not handed.
pub fn accepted_text(
    heap: Global,
    draft: &Draft<'_>,
    floor: Estimate<Minutes>,
) -> Result<String, AllocError>
    ensures { IfOk result (λ text. AcceptedText draft.now floor (string_bytes text)) }
{
    let facts = draft.facts;
    let moves = draft.moves.len();
    let start = set_text(heap, draft.start)?;
    let goal = set_text(heap, draft.goal)?;
    let floor = Floor(floor);
    format!(in heap; "facts={facts}\nmoves={moves}\nstart={start}\ngoal={goal}\nfloor={floor}\n")
}
