// What a program that searches prints, as text: each function says which bytes it makes.
#![tactic(auto)]

mod answer;
mod finding;
mod response;

pub use answer::answer_text;
pub use response::respond;
