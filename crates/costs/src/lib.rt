// Kinds of cost: what a move costs, how costs are joined, and which of two is the less.
#![tactic(auto)]

mod estimate;
mod lists;
mod minutes;
mod tally;
mod worst;

pub use estimate::Estimate;
pub use lists::list_cost;
pub use minutes::Minutes;
pub use tally::Tally;
pub use worst::Worst;
