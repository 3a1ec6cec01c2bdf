// The ways in which a run stops, each with what it tells.
ghost use Rattle.std.specs.Prelude.{◌≡◌, Decides, nat_le};
ghost use Rattle.facts.specs.Sets.{Within};
ghost use Rattle.tasks.specs.Tasks.{start_of};
ghost use Rattle.theory.specs.declared.reply.End.TheVariants.{Going, Planned, Exhausted, Filled};
ghost use Rattle.theory.specs.declared.reply.Kind.TheVariants.{Pending, Plan, NoPlan, Full as IsFull};

use costs::Tally;
use records::Numbered;
use tasks::Task;
use theory::{End, Kind, Reply};

// What a run comes to: how the search stands then, and the reply.
#[derive(Drop)]
pub struct Ran<V> {
    pub end: End,
    pub reply: Reply<V>,
}

// No record waits.
pub fn ran_out<V: Tally>(opened: u32) -> Ran<V>
    ensures { result ≡ record { end = Exhausted; reply = record { kind = NoPlan; opened = opened; value = V.Tally.nil; length = 0 } } }
{
    let reply = Reply {
        kind: Kind::NoPlan,
        opened,
        value: V::nil(),
        length: 0,
    };
    Ran {
        end: End::Exhausted,
        reply,
    }
}

// Whether the set of the choice lies within the start.
pub fn arrives<V: Tally>(task: &Task<'_>, first: &Numbered<V>) -> bool
    ensures { Decides result (Within first.now.row.set (start_of task.now)) }
{
    first.row.set.is_within(task.start())
}

// The choice lies within the start: so many moves lead there, at the cost spent.
pub fn arrived<V: Tally>(first: &Numbered<V>, opened: u32, length: u16) -> Ran<V>
    ensures { result ≡ record { end = Planned first.now.number; reply = record { kind = Plan; opened = opened; value = first.now.row.spent; length = length } } }
{
    let reply = Reply {
        kind: Kind::Plan,
        opened,
        value: first.row.spent,
        length,
    };
    Ran {
        end: End::Planned(first.number),
        reply,
    }
}

// Whether a run has made as many openings as it was granted.
pub fn is_used_up(opened: u32, grant: u32) -> bool
    ensures { result ≡ nat_le grant opened }
{
    opened >= grant
}

// The grant is used up: the floor is what the choice promises.
pub fn paused<V: Tally>(first: &Numbered<V>, openings: u32) -> Ran<V>
    ensures { result ≡ record { end = Going; reply = record { kind = Pending; opened = openings; value = first.now.row.promise; length = 0 } } }
{
    let reply = Reply {
        kind: Kind::Pending,
        opened: openings,
        value: first.row.promise,
        length: 0,
    };
    Ran {
        end: End::Going,
        reply,
    }
}

// The opening of the choice found no room and is not counted: the floor is what the choice promises.
pub fn filled<V: Tally>(first: &Numbered<V>, counted: u32) -> Ran<V>
    ensures { result ≡ record { end = Filled first.now.number; reply = record { kind = IsFull; opened = counted; value = first.now.row.promise; length = 0 } } }
{
    let reply = Reply {
        kind: Kind::Full,
        opened: counted,
        value: first.row.promise,
        length: 0,
    };
    Ran {
        end: End::Filled(first.number),
        reply,
    }
}
