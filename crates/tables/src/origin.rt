// What a table was worked out from.
ghost use Rattle.std.specs.Prelude.{◌≡◌, ◌↔◌, IsTrue};
ghost use Rattle.facts.specs.Words.{bit};
ghost use Rattle.tables.specs.Equation.{setting_of, charge_if_counted, offer_of};
ghost use Rattle.tables.specs.Origins.{setting_in};
ghost use Rattle.tables.specs.Reading.{share_at};
ghost use Rattle.tables.specs.Rules.{is_same_task, SameTask};

use costs::{Estimate, Tally};
use facts::FactSet;
use tasks::{Move, Task};

// The parts of a task on which its tables rest, and the groups whose moves are counted.
#[derive(Clone, Copy)]
pub struct Origin<'a> {
    pub facts: u8,
    pub start: FactSet,
    pub moves: &'a [Move],
    // bit i, from the lowest, counts the moves of group i
    pub groups: u8,
}

impl<'a> Origin<'a> {
    pub fn of(task: &Task<'a>, groups: u8) -> Origin<'a>
        ensures { setting_in result ≡ setting_of task.now groups }
    {
        Origin {
            facts: task.facts(),
            start: task.start(),
            moves: task.moves(),
            groups,
        }
    }

    // Whether the task has the same facts, start and moves; its goal may be any.
    pub fn is_of(&self, task: &Task<'_>) -> bool
        ensures told { result ≡ is_same_task (setting_in self.now) task.now }
        ensures exact { IsTrue result ↔ SameTask (setting_in self.now) task.now }
    {
        self.has_parts_of(task)
    }

    // The same, as a test of the parts.
    fn has_parts_of(&self, task: &Task<'_>) -> bool
        ensures { result ≡ is_same_task (setting_in self.now) task.now }
    {
        self.facts == task.facts() && self.start == task.start() && self.moves == task.moves()
    }

    // The charge of a move if its group is counted, otherwise nil.
    pub(crate) fn counted_charge<V: Tally>(&self, m: &Move) -> V
        ensures { result ≡ charge_if_counted V.Tally self.now.groups m.now }
    {
        if is_counted(self.groups, m.group) {
            V::charge(m.price, m.group)
        } else {
            V::nil()
        }
    }

    // The counted charge of a move joined with an estimate.
    pub(crate) fn offer<V: Tally>(&self, m: &Move, estimate: Estimate<V>) -> Estimate<V>
        ensures { result ≡ offer_of V.Tally (setting_in self.now) m.now estimate }
    {
        Some(self.counted_charge::<V>(m)).join(estimate)
    }

    // The counted charge of the move of this number, nil past the last move.
    pub(crate) fn share<V: Tally>(&self, number: u16) -> V
        ensures { result ≡ share_at V.Tally self.now.groups self.now.moves.now number }
    {
        let Some(m) = self.moves.get(usize::from(number)) else {
            return V::nil();
        };
        self.counted_charge(m)
    }
}

// Whether the group is counted: bit i of `groups`, from the lowest, counts group i.
fn is_counted(groups: u8, group: u8) -> bool
    ensures { result ≡ bit groups group }
{
    group < 8 && (groups >> group) % 2 == 1
}
