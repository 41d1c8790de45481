//! The outside as it really is: a tree and servers in folders of the file system, and standard input. They tell
//! contracts nothing of what they hold.
#![tactic(auto)]

mod disk;
mod folder_device;
mod folder_shelf;
mod folder_tree;
mod known_folders;
mod std_source;

pub use folder_device::FolderDevice;
pub use folder_shelf::FolderShelf;
pub use std_source::StdSource;
