// The records as they stand in the table.
ghost use Rattle.std.specs.Prelude.{◌≡◌, ◌<◌, ◌≤◌, [], length, min, take, slice_set, MatchOption};
ghost use Rattle.tasks.specs.Places.{At};
ghost use Rattle.records.specs.Tables.{table_of, recs_of, room_of, Grown, Added};
ghost use Rattle.records.specs.Openings.{ShutAt};

use crate::table::Records;
use costs::Tally;
use theory::{Mark, Record};

// The records fill the room lent, and one more is asked for.
#[derive(Clone, Copy)]
pub struct Full;

impl<'a, V: Tally> Records<'a, V> {
    // None yet, in a table of which so many places may be records, or all where it has fewer.
    pub fn new(table: &'a mut [Record<V>], room: u16) -> Self
        ensures none { recs_of result ≡ [] }
        ensures room { room_of result ≡ min room (length table.old) }
        ensures table { table_of result ≡ table.old }
        ensures lent { result.table.ghost_name ≡ table.entry.ghost_name }
    {
        Records::of(table, 0, room)
    }

    // The first places of a table as records: so many, or as many as may be.
    pub fn of(table: &'a mut [Record<V>], count: u16, room: u16) -> Self
        ensures recs { recs_of result ≡ take (min count (min room (length table.old))) table.old }
        ensures room { room_of result ≡ min room (length table.old) }
        ensures table { table_of result ≡ table.old }
        ensures lent { result.table.ghost_name ≡ table.entry.ghost_name }
    {
        let room = usize::from(room).min(table.len()) as u16;
        let count = count.min(room);
        Records { table, count, room }
    }

    // The records by their numbers.
    pub fn rows(&self) -> &[Record<V>]
        ensures rows { result.now ≡ recs_of self.now }
        ensures few { length result.now ≤ 65535 }
    {
        &self.table[..usize::from(self.count)]
    }

    // The record of a number.
    pub fn get(&self, number: u16) -> Option<Record<V>>
        ensures { MatchOption result (length (recs_of self.now) ≤ number) (At (recs_of self.now) number) }
    {
        let row = self.rows().get(usize::from(number))?;
        Some(*row)
    }

    // Adds a record after the others, if there is room.
    pub fn add(&mut self, new: Record<V>) -> Result<(), Full>
        ensures grown { Grown self.old self.new }
        ensures added { Added (room_of self.old) (recs_of self.old) (recs_of self.new) new result }
    {
        if self.count >= self.room {
            return Err(Full);
        }
        self.table[usize::from(self.count)] = new;
        self.count += 1;
        Ok(())
    }

    // Writes the record of a number.
    pub(crate) fn put(&mut self, number: u16, new: Record<V>)
        requires { number < length (recs_of self.old) }
        ensures grown { Grown self.old self.new }
        ensures put { recs_of self.new ≡ slice_set (recs_of self.old) number new }
    {
        self.table[usize::from(number)] = new;
    }

    // Marks the record of a number as shut, if there is one.
    pub(crate) fn shut(&mut self, number: u16)
        ensures grown { Grown self.old self.new }
        ensures shut { number < length (recs_of self.old) → ShutAt (recs_of self.old) number (recs_of self.new) }
    {
        if let Some(row) = self.get(number) {
            self.put(
                number,
                Record {
                    mark: Mark::Shut,
                    ..row
                },
            );
        }
    }

    // The table as it stands.
    pub fn into_table(self) -> &'a mut [Record<V>]
        ensures { result.now ≡ table_of self.entry }
    {
        let Records {
            table,
            count: _,
            room: _,
        } = self;
        table
    }
}
