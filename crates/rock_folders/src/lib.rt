//! What the folders of rocks in a tree say of the rocks: which rocks are found there, and what their records and rockspecs
//! say.
#![tactic(auto)]

mod finding;
mod folder;
mod places;
mod reading;
mod recorded;
mod rockspecs;

pub use finding::found_rocks;
pub use folder::{Folder, FoundRockspec};
pub use reading::{Reading, read_folder};
