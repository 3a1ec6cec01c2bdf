// Checked tasks.
ghost use Rattle.std.specs.Prelude.{MatchOption};
ghost use Rattle.tasks.specs.Faults.{Faultless};
ghost use Rattle.tasks.specs.Places.{At};

use crate::draft::Draft;
use crate::moves::Move;
use facts::FactSet;

pub mod carrying;
pub mod checking;

// A draft that passed the check: it has no fault. Its field is private, so that a task comes from the check and from nowhere else.
#[derive(Clone, Copy)]
pub struct Task<'a> {
    draft: Draft<'a>,
    pub ghost checked: { Faultless draft },
}

impl<'a> Task<'a> {
    ghost use Rattle.std.specs.Prelude.{◌≡◌};
    ghost use Rattle.tasks.specs.Tasks.{facts_of, start_of, goal_of, moves_of};

    // How many facts there are.
    pub fn facts(&self) -> u8
        ensures { result ≡ facts_of self.now }
    {
        self.draft.facts
    }

    pub fn start(&self) -> FactSet
        ensures { result ≡ start_of self.now }
    {
        self.draft.start
    }

    pub fn goal(&self) -> FactSet
        ensures { result ≡ goal_of self.now }
    {
        self.draft.goal
    }

    pub fn moves(&self) -> &'a [Move]
        ensures { result.now ≡ moves_of self.now }
    {
        self.draft.moves
    }

    // The move of this number.
    pub fn get(&self, number: u16) -> Option<Move>
        ensures { MatchOption result ((m : Move) → At (moves_of self.now) number m → ⊥) (At (moves_of self.now) number) }
    {
        get(self.moves(), number)
    }
}

fn get(moves: &[Move], number: u16) -> Option<Move>
    ensures { MatchOption result ((m : Move) → At moves.now number m → ⊥) (At moves.now number) }
{
    moves.get(usize::from(number)).copied()
}
