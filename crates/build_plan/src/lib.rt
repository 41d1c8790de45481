//! What a rockspec's build installs: which file of the sources comes to stand where.
#![tactic(auto)]

mod checks;
mod entries;
mod fault;
mod fields;
pub mod laws;
mod places;
mod plan;
mod recipe;
mod stop;

pub use build_targets::{Dest, Target};
pub use fault::PlanFault;
pub use fields::bytes_of;
pub use plan::{BuildPlan, build_plan};
pub use recipe::Recipe;
