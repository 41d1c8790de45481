//! Rockspecs: what a rock is called, what it needs and what it installs, read from the bytes of its file.
#![tactic(auto)]

mod dependencies;
mod fault;
mod fields;
mod identity;
pub mod laws;
mod read;
mod supported;
mod text;

pub use build_plan::{BuildPlan, Dest, PlanFault, Recipe, Target};
pub use fault::SpecFault;
pub use read::{LONGEST_ROCKSPEC, Rockspec};
pub use rockspec_table::{Format, ShapeFault};
