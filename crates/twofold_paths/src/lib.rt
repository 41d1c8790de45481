//! The least of some paths at which a file would stand in another's way.
#![tactic(auto)]

mod place;
mod search;
mod twofold;

pub use place::Place;
pub use twofold::least_twofold;
