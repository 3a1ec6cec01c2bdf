// Cost tables: what sets of one or two facts cost at least, and the bounds that read them.
#![tactic(auto)]

mod layout;
mod one;
mod origin;
mod places;
mod refusal;
mod settling;
mod table;
mod theorems;
mod two;
mod work;

pub use one::One;
pub use origin::Origin;
pub use refusal::TableTooShort;
pub use table::{Pair, Single, Table};
pub use theorems::{greatest_is_sole, shares_are_drawn, worked_out_tables_fit};
pub use two::Two;
pub use work::work_out;
