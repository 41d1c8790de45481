//! Versions: their form, their components, and the orders that they are compared and listed by.
#![tactic(auto)]

mod component;
mod fault;
mod key;
pub mod laws;
mod order;
mod text;
mod version;

pub use component::{Rung, Step, first, has_component};
pub use fault::VersionFault;
pub use key::{RockKey, before, listing, rockspec_name};
pub use order::{compare, rank};
pub use version::Version;
