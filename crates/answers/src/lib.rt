// What the program prints, as text: each function says which bytes it makes.
#![tactic(auto)]

mod accepted;
mod floors;
mod response;

pub use accepted::accepted_text;
pub use floors::{Floor, floor_of};
pub use response::respond;
