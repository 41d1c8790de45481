//! How the files of a tree change with its set of rocks.
#![tactic(auto)]

pub mod laws;

pub use tree_moves::{JournalFault, Move, MoveLists, Staged, perform};
