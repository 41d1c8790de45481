//! Which files of a folder become which files of a rock: the steps of a build from sources, and those that take an
//! unpacked rock's folder. Nothing is read here.
#![tactic(auto)]

mod building;
mod folders;
pub mod laws;
mod taking;

pub use building::build_steps;
pub use rock_parts::{Part, Source, Step};
pub use taking::{first_bad, taken_steps};
