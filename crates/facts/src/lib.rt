// Facts and sets of facts.
#![tactic(auto)]

mod sets;

pub use sets::rising::Rising;
pub use sets::{FactSet, equal_facts_equal_sets};
