// The records of a search in lent memory: the record of a set, the choice, and the opening of a choice.
#![tactic(auto)]

mod cells;
mod choosing;
mod finding;
mod numbered;
mod opening;
mod reading;
mod table;
mod taking;

pub use cells::Full;
pub use choosing::choice;
pub use finding::record_of;
pub use numbered::Numbered;
pub use opening::open;
pub use reading::read;
pub use table::Records;
