// Moves, carried out forwards and regressed backwards.
ghost use Rattle.std.specs.Option.{MatchOption};
ghost use Rattle.facts.specs.declared.sets.FactSet.{FactSet as SetOfFacts};
ghost use Rattle.tasks.specs.Moves.{Carries, Regresses};

use facts::FactSet;

// A move needs some facts, makes some and breaks some.
#[derive(Clone, Copy, PartialEq, Eq)]
pub struct Move {
    // 0 to 7; tables may count the moves of some groups only
    pub group: u8,
    pub price: u16,
    pub needs: FactSet,
    pub makes: FactSet,
    pub breaks: FactSet,
}

impl Move {
    // The facts that stand once the move is carried out in `set`; `None` where the set lacks a need.
    pub fn carry(&self, set: FactSet) -> Option<FactSet>
        ensures { MatchOption result ((t : SetOfFacts) → Carries self.now set t → ⊥) (Carries self.now set) }
    {
        if !self.needs.is_within(set) {
            return None;
        }
        Some(set.without(self.breaks).union(self.makes))
    }

    // The set to which the move regresses `set`; `None` where it makes none of its facts or breaks one.
    pub fn regress(&self, set: FactSet) -> Option<FactSet>
        ensures { MatchOption result ((t : SetOfFacts) → Regresses self.now set t → ⊥) (Regresses self.now set) }
    {
        if !self.makes.overlaps(set) {
            return None;
        }
        if self.breaks.overlaps(set) {
            return None;
        }
        Some(set.without(self.makes).union(self.needs))
    }
}
