//! Rocks that are built from the sources beside their rockspec, or taken from an unpacked rock's folder.
#![tactic(auto)]

mod folders;
pub mod laws;
mod making;

pub use folders::unpacked_rockspec;
pub use making::{build, take};
pub use rock_files::BuildFault;
