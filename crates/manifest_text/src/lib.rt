//! What a tree's manifest says, and the one text that says it.
#![tactic(auto)]

mod printing;
mod tables;
mod view;

pub use printing::print_manifest;
pub use view::{ManifestView, ViewRock};
