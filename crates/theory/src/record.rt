use facts::FactSet;

// Whether a record is still to be opened. A* calls the waiting records open and the shut ones closed.
#[derive(Clone, Copy, PartialEq, Eq)]
pub enum Mark {
    Waiting,
    Shut,
}

// What the search knows of one set of facts. Its six entries, with 65,535 for none, are fixed for whoever reads the table.
#[derive(Clone, Copy)]
pub struct Record<V> {
    // the facts that are to stand
    pub set: FactSet,
    // what the chain from the goal to this record costs; A* calls it g
    pub spent: V,
    // spent joined with the estimate of the set; A* calls it f
    pub promise: V,
    // the record whose set was regressed to this one; 65,535 for the goal
    pub parent: u16,
    // the move by which it was regressed; 65,535 for the goal
    pub via: u16,
    pub mark: Mark,
}
