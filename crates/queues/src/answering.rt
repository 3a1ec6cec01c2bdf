// The calls of a queue, one after another.
ghost use Rattle.std.specs.Prelude.{◌≡◌};
ghost use Rattle.records.specs.Openings.{lent_of};
ghost use Rattle.queues.specs.Calls.{Replied, ReadFront, Serves};

use crate::calls::{Call, Told};
use bounds::Bound;
use costs::Tally;
use search::Search;
use theory::Refusal;

// Makes each call in turn, as many as there are places for the replies, and writes its answer beside it.
// That the table stays the one lent relates two states, so that no field can hold it.
pub fn answer_all<V: Tally, B: Bound<Value = V>>(
    search: &mut Search<'_, '_, V>,
    bound: &B,
    calls: &[Call],
    replies: &mut [Result<Told<V>, Refusal>],
    list: &mut [u16],
)
    ensures served { Serves V.Tally (lent_of B.Bound search.old.task bound.now) calls.now replies.old replies.new list.old list.new search.old search.new }
    ensures lent { search.new.holding.records.table.ghost_name ≡ search.old.holding.records.table.ghost_name }
{
    // a zip with `iter_mut` was tried: after it nothing is known of what was written
    for (i, told) in replies.iter_mut().enumerate() {
        let Some(call) = calls.get(i) else {
            return;
        };
        *told = answer(search, bound, *call, list);
    }
}

// Makes one call, which is taken apart as data.
fn answer<V: Tally, B: Bound<Value = V>>(
    search: &mut Search<'_, '_, V>,
    bound: &B,
    call: Call,
    list: &mut [u16],
) -> Result<Told<V>, Refusal>
    ensures replied { Replied V.Tally (lent_of B.Bound search.old.task bound.now) call list.old list.new search.old search.new result }
    ensures lent { search.new.holding.records.table.ghost_name ≡ search.old.holding.records.table.ghost_name }
{
    match call {
        Call::Run(grant) => {
            let reply = search.run(bound, grant)?;
            Ok(Told::Ran(reply))
        }
        Call::ReadOut(room) => {
            let length = read_front(search, room, list)?;
            Ok(Told::Read(length))
        }
    }
}

// Reads out into the first places of the list.
fn read_front<V: Tally>(
    search: &Search<'_, '_, V>,
    room: usize,
    list: &mut [u16],
) -> Result<u16, Refusal>
    ensures { ReadFront V.Tally search.now room list.old list.new result }
{
    let places = room.min(list.len());
    search.read_out(&mut list[0..places])
}
