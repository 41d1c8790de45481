//! The paths that the rocks of a tree claim, and why a further rock can't stand beside them.
#![tactic(auto)]

mod claims;
mod clash;
mod entry;
pub mod laws;
mod search;

pub use claims::Claims;
pub use clash::Clash;
