// What the first four lines say.
ghost use Rattle.std.specs.Prelude.{◌<◌, length, MatchOption};
ghost use Rattle.taskfile.specs.Headings.{DraftOf};

use facts::FactSet;
use tasks::{Draft, Move};

#[derive(Clone, Copy)]
pub struct Heading {
    // how many facts there are
    pub facts: u8,
    // how many moves there are; they stand in the front of a list that is lent
    pub count: u16,
    pub start: FactSet,
    pub goal: FactSet,
}

impl Heading {
    // The draft of this heading and the first `count` moves of the list; `None` where the list has fewer.
    pub fn draft<'a>(&self, moves: &'a [Move]) -> Option<Draft<'a>>
        ensures { MatchOption result (length moves.now < self.now.count) (DraftOf self.now moves.now) }
    {
        let first = moves.get(..usize::from(self.count))?;
        Some(Draft {
            facts: self.facts,
            start: self.start,
            goal: self.goal,
            moves: first,
        })
    }
}
