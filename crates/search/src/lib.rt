// The search: make, run, read out, close.
#![tactic(auto)]

mod beginning;
mod search;

pub use search::Search;
