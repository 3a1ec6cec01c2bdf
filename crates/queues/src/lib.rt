// A whole queue of calls of a search, with all that it promises.
#![tactic(auto)]

mod answering;
mod calls;
mod whole;

pub use calls::{Call, Told};
pub use whole::queue;
