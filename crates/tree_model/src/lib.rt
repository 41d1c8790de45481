//! What files a tree has: a definition, in `specs/`, by the set of the rocks that are installed in it, and the call
//! that answers the files of one rock.
#![tactic(auto)]

mod changes;
mod index;
pub mod laws;
mod met;
mod pairs;
mod staging;
mod view;

pub use index::Index;
pub use staging::{Staged, files};
