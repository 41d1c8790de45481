//! Sets of rocks, and the tree of each: definitions, in `specs/`, that all that stands above goes by, and their laws.
#![tactic(auto)]

mod entry;
pub mod laws;
mod limits;

pub use entry::IndexEntry;
pub use limits::{MOST_ROCKS, MOST_TREE_FILES};
