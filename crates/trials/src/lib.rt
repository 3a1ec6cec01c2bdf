// Examples of searches, as tests: a crate of their own, so that the others are proved once.
#![tactic(auto)]

#[cfg(test)]
mod calling;
#[cfg(test)]
mod queueing;

#[cfg(test)]
use costs::{Minutes, Tally};
#[cfg(test)]
use facts::FactSet;
#[cfg(test)]
use queues::Told;
#[cfg(test)]
use theory::{Kind, Mark, Record, Refusal};

// A record to fill a table with, other than the one of solutions, so that what no call writes is seen.
#[cfg(test)]
fn blank<V: Tally>() -> Record<V> {
    Record {
        set: FactSet::empty(),
        spent: V::nil(),
        promise: V::nil(),
        parent: 7,
        via: 7,
        mark: Mark::Shut,
    }
}

// The kind in a word, so that a reply and what is expected of it stand on one line.
#[cfg(test)]
fn word(kind: Kind) -> &'static str {
    match kind {
        Kind::Pending => "pending",
        Kind::Plan => "plan",
        Kind::NoPlan => "none",
        Kind::Full => "full",
    }
}

// A reply as a word, its openings, its value and its length; of a read-out the length; of a refusal the number as value.
#[cfg(test)]
fn shown(told: Result<Told<Minutes>, Refusal>) -> (&'static str, u32, u32, u16) {
    match told {
        Ok(Told::Ran(r)) => (word(r.kind), r.opened, r.value.total, r.length),
        Ok(Told::Read(n)) => ("read", 0, 0, n),
        Err(why) => ("refused", 0, u32::from(why.number()), 0),
    }
}
