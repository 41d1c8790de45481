//! Dependencies: the text of one both ways, and when a version meets one.
#![tactic(auto)]

mod condition;
mod constraint;
mod cut;
mod dependency;
mod fault;
pub mod laws;
mod printed;
mod reader;

pub use condition::meets;
pub use constraint::{Constraint, Operator};
pub use dependency::Dependency;
pub use fault::DependencyFault;
