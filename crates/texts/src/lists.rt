// Lists in a line: numbers joined by commas.
ghost use Rattle.std.specs.Prelude.{◌≡◌, ℕ, List, IfOk, string_bytes};
ghost use Rattle.facts.specs.Sets.{Lists};
ghost use Rattle.taskfile.specs.Entries.{joined};

use facts::FactSet;
use itertools::Itertools;
use std::alloc::{AllocError, Global};

// A set of facts, in rising order: the library's `join`, and which bytes it makes.
pub fn set_text(heap: Global, set: FactSet) -> Result<String, AllocError>
    ensures { IfOk result (λ text. (facts : List ℕ) × Lists set facts × (string_bytes text ≡ joined facts)) }
{
    set.iter().join(heap, ",")
}

// Numbers of moves, in list order, likewise.
pub fn moves_text(heap: Global, moves: &[u16]) -> Result<String, AllocError>
    ensures { IfOk result (λ text. string_bytes text ≡ joined moves.now) }
{
    moves.iter().join(heap, ",")
}
