// Bounds: estimates of what it costs to reach a set from the start, from which nothing is ever promised too dear.
#![tactic(auto)]

mod blind;
mod bound;
mod higher;
mod overdraft;
mod sum;
mod theorems;

pub use blind::Blind;
pub use bound::Bound;
pub use higher::Higher;
pub use overdraft::is_overdrawn;
pub use sum::Sum;
pub use theorems::{estimates_are_floors, piles_are_sound};
