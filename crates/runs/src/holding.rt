ghost use Rattle.std.specs.Prelude.{length};
ghost use Rattle.records.specs.Tables.{recs_of};
ghost use Rattle.runs.specs.Ends.{Inside, inside_prop};

use records::Records;
use theory::End;

// What a search holds between runs.
#[derive(Drop)]
pub struct Holding<'a, V> {
    pub records: Records<'a, V>,
    // how it has ended, with the number of the record that tells the cost or the floor
    pub end: End,
    // the end tells of one of the records
    ghost inside: { Inside (length (recs_of records)) end } by { inside_prop (length (recs_of records)) end },
}
