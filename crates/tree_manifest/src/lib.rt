//! The text of a tree's manifest both ways.
#![tactic(auto)]

mod fault;
mod groups;
mod keys;
pub mod laws;
mod order;
mod provided;
mod quoted;
mod reader;
mod rocks;

pub use fault::ManifestFault;
pub use manifest_text::{ManifestView, ViewRock, print_manifest};
pub use reader::read_manifest;
