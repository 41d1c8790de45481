//! Where the files that a rockspec's build names come to stand.
#![tactic(auto)]

mod folders;
mod keys;
pub mod laws;
mod meanings;
mod paths;
mod places;
mod target;

pub use folders::folder;
pub use meanings::{Listing, meaning};
pub use target::{Dest, Target};
