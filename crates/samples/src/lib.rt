// What tests are made of: sets, moves, and a small task.
#![tactic(auto)]

mod sets;
mod small;

pub use sets::set_of;
pub use small::{draft_of, move_of, task_of, two_moves};
