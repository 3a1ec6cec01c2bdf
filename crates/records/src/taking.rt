// One move taken from the choice: the record that it gives betters one of its set, or is added.
ghost use Rattle.std.specs.Prelude.{◌≡◌, ◌<◌, length};
ghost use Rattle.theory.specs.Openings.{child};
ghost use Rattle.theory.specs.Problem.{Problem};
ghost use Rattle.records.specs.Entries.{lowered_of, LoweredAt, Entered};
ghost use Rattle.records.specs.Tables.{recs_of, room_of, Grown};

use crate::cells::Full;
use crate::finding::record_of;
use crate::numbered::Numbered;
use crate::reading::read;
use crate::table::Records;
use costs::Tally;
use facts::FactSet;
use tasks::Move;
use theory::{Mark, Record};

// The record that a move gives from the choice, for the set to which it regresses and the estimate of that set.
pub fn child<V: Tally>(
    choice: &Numbered<V>,
    number: u16,
    m: Move,
    set: FactSet,
    estimate: V,
) -> Record<V>
    ensures { (P : Problem V.Tally) → result ≡ child P choice.now.number choice.now.row number m set estimate }
{
    let spent = choice.row.spent.join(V::charge(m.price, m.group));
    Record {
        set,
        spent,
        promise: spent.join(estimate),
        parent: choice.number,
        via: number,
        mark: Mark::Waiting,
    }
}

impl<V: Tally> Records<'_, V> {
    // Lets the new record better the waiting record of its set, or adds it.
    pub(crate) fn enter(&mut self, new: Record<V>) -> Result<(), Full>
        ensures grown { Grown self.old self.new }
        ensures entered { Entered V.Tally (room_of self.old) (recs_of self.old) (recs_of self.new) new result }
    {
        let Some(number) = record_of(self.rows(), new.set) else {
            return self.add(new);
        };
        self.lower(number, new);
        Ok(())
    }

    // Writes what is left of the record of a number once a new one of its set comes.
    fn lower(&mut self, number: u16, new: Record<V>)
        requires { number < length (recs_of self.old) }
        ensures grown { Grown self.old self.new }
        ensures lowered { LoweredAt V.Tally (recs_of self.old) number new (recs_of self.new) }
    {
        let old = read(self.rows(), number);
        self.put(number, lowered(old, new));
    }
}

// Which of two records of a set is left: a shut one stays as it is, else the one that has spent less, the old one where they tie.
fn lowered<V: Tally>(old: Record<V>, new: Record<V>) -> Record<V>
    ensures { result ≡ lowered_of V.Tally old new }
{
    match old.mark {
        Mark::Waiting if !old.spent.at_most(new.spent) => new,
        _ => old,
    }
}
