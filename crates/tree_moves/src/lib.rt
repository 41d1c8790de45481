//! The moves by which the files of a tree change, and the call that makes them on a device.
#![tactic(auto)]

mod fault;
pub mod laws;
mod lists;
mod performing;

pub use fault::JournalFault;
pub use lists::{Move, MoveLists, Staged};
pub use performing::perform;
