// Moves, drafts and checked tasks: carrying out, regressing, and what makes a list good.
#![tactic(auto)]

mod draft;
mod moves;
mod refusal;
mod task;
mod theorems;

pub use draft::Draft;
pub use moves::Move;
pub use refusal::{Fault, Place, Refusal};
pub use task::Task;
pub use task::carrying::{Arrival, Stuck};
pub use task::checking::check;
pub use theorems::{chains_are_good_lists, good_lists_have_chains};
