//! Which rocks have which items, in the order of rocks: the first holds an item's plain path.
#![tactic(auto)]

mod entry;
pub mod laws;
mod providers;

pub use providers::Providers;
