//! The files of a rock, read from a folder of a server within the limits on one rock, or the first step that fails.
#![tactic(auto)]

mod fault;
mod gathering;

pub use fault::BuildFault;
pub use gathering::{Gathered, gather};
