// Carrying out a list of moves, from the start on.
ghost use Rattle.std.specs.Option.{MatchOption};
ghost use Rattle.std.specs.Result.{MatchResult};
ghost use Rattle.tasks.specs.Lists.{Step, Carried, StuckAt, ComesTo};
ghost use Rattle.tasks.specs.Tasks.{moves_of};

use super::{Task, get};
use crate::moves::Move;
use facts::FactSet;

// Where a list leads when all its moves are done.
#[derive(Clone, Copy, PartialEq, Eq, Debug)]
pub struct Arrival {
    // the facts that stand then
    pub facts: FactSet,
    // whether every goal fact is among them
    pub goal: bool,
}

// A list that cannot be carried out to its end.
#[derive(Clone, Copy, PartialEq, Eq, Debug)]
pub struct Stuck {
    // the first place in the list whose move cannot be carried out, or whose number is no move
    pub at: usize,
}

impl Task<'_> {
    // The facts that stand once the move of this number is carried out in `facts`; `None` where it cannot be, or where there is no such move.
    pub fn carry_move(&self, number: u16, facts: FactSet) -> Option<FactSet>
        ensures { MatchOption result ((t : FactSet) → Step (moves_of self.now) number facts t → ⊥) (Step (moves_of self.now) number facts) }
    {
        carry_one(self.draft.moves, number, facts)
    }

    // Carries out the moves of these numbers in order, from the start.
    pub fn carry(&self, list: &[u16]) -> Result<Arrival, Stuck>
        ensures { ComesTo self.now list.now result }
    {
        let facts = carry_list(self.draft.moves, self.draft.start, list)?;
        Ok(Arrival {
            facts,
            goal: self.draft.goal.is_within(facts),
        })
    }
}

fn carry_one(moves: &[Move], number: u16, facts: FactSet) -> Option<FactSet>
    ensures { MatchOption result ((t : FactSet) → Step moves.now number facts t → ⊥) (Step moves.now number facts) }
{
    get(moves, number)?.carry(facts)
}

// The facts that stand at the end, or the place in the list where it gets stuck.
fn carry_list(moves: &[Move], start: FactSet, list: &[u16]) -> Result<FactSet, Stuck>
    ensures { MatchResult result (Carried moves.now start list.now) (λ e. StuckAt moves.now start list.now e.at) }
{
    let mut facts = start;
    for (at, number) in list.iter().enumerate() {
        let Some(next) = carry_one(moves, *number, facts) else {
            return Err(Stuck { at });
        };
        facts = next;
    }
    Ok(facts)
}
