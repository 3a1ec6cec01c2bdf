// The records and replies of a search, the rules by which it goes (in specs), and what it promises (theorems).
#![tactic(auto)]

mod record;
mod refusal;
mod reply;
mod theorems;

pub use record::{Mark, Record};
pub use refusal::Refusal;
pub use reply::{End, Kind, Reply};
pub use theorems::{
    every_call_has_one_answer, every_make_has_one_outcome, only_the_sum_counts,
    queues_keep_promises, small_task_worked_through,
};
