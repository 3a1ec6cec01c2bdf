// Task files: what the bytes say, or why and at which line they say nothing.
#![tactic(auto)]

mod cuts;
mod heading;
mod keys;
mod misread;
mod numbers;
mod reader;
mod sets;
mod values;

pub use heading::Heading;
pub use misread::{Flaw, Misread};
pub use reader::reading::read;
