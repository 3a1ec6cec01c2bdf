// Examples of what the other crates do, as tests: a crate of their own, so that the others are proved once.
#![tactic(auto)]

#[cfg(test)]
mod bounding;
#[cfg(test)]
mod checking;
#[cfg(test)]
mod costing;
#[cfg(test)]
mod reading;
#[cfg(test)]
mod sets;

#[cfg(test)]
use costs::{Minutes, Worst};

#[cfg(test)]
fn minutes(total: u32) -> Minutes {
    Minutes { total }
}

#[cfg(test)]
fn worst(highest: u16) -> Worst {
    Worst { highest }
}
