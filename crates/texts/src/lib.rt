// What every program does with a file: reads and checks it, and prints lists and refusals.
#![tactic(auto)]

mod drafts;
mod lists;
mod refused;

pub use drafts::{read_task, room};
pub use lists::{moves_text, set_text};
pub use refused::{NumberAndLine, Refused};
