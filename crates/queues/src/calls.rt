use theory::Reply;

// One call of a search.
#[derive(Clone, Copy)]
pub enum Call {
    // a run with this grant
    Run(u32),
    // a read-out into the first places of the list lent: so many of them, or all where it has fewer
    ReadOut(usize),
}

// What it is told, where it is not refused.
#[derive(Clone, Copy)]
pub enum Told<V> {
    // what the run tells
    Ran(Reply<V>),
    // how many moves stand in the front of the list
    Read(u16),
}
