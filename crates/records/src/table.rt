ghost use Rattle.std.specs.Prelude.{◌≤◌, length};

use theory::Record;

// The records of a search: the first `count` places of a lent table, of which at most `room` may be. There is no heap for them.
#[derive(Drop)]
pub struct Records<'a, V> {
    pub(crate) table: &'a mut [Record<V>],
    pub(crate) count: u16,
    pub(crate) room: u16,
    ghost counted: { count ≤ room },
    ghost fits: { room ≤ length table.now },
}
