// What a run tells: the search goes on, or how it has ended.
#[derive(Clone, Copy, PartialEq, Eq, Debug)]
pub enum Kind {
    // the grant is used up
    Pending,
    // a cheapest good list is found
    Plan,
    // there is no good list
    NoPlan,
    // the table has no place for another record
    Full,
}

// The answer of a run. Its four parts, nil and 0 where a kind has none, are what two answers are compared by.
#[derive(Clone, Copy, PartialEq, Eq, Debug)]
pub struct Reply<V> {
    pub kind: Kind,
    // how many openings this run has made
    pub opened: u32,
    // with Plan the cost of the list; with Pending and Full a floor, below which no good list costs; else nil
    pub value: V,
    // how many moves the plan has, else 0
    pub length: u16,
}

// How a search stands between runs, with the record that its end tells of.
#[derive(Clone, Copy, PartialEq, Eq, Debug)]
pub enum End {
    // it has not ended
    Going,
    // the list of this record is a cheapest plan
    Planned(u16),
    // no record waits
    Exhausted,
    // while this record was opened the table was full
    Filled(u16),
}
