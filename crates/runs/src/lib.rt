// A run of the search over its records, and the way from a record back to the goal.
#![tactic(auto)]

mod holding;
mod running;
mod stopping;
mod telling;
mod trails;

pub use holding::Holding;
pub use running::run;
pub use trails::{copy_trail, trail_length};
