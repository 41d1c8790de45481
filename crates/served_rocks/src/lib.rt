//! What the servers of a shelf serve: files, rockspecs and whole rocks, each from the earliest server that has it.
#![tactic(auto)]

mod fault;
mod fetching;
pub mod laws;
mod rockspecs;
mod search;

pub use fault::Unserved;
pub use fetching::fetch;
pub use rockspecs::{Origin, Served, find_rockspec};
pub use search::{Found, find};
