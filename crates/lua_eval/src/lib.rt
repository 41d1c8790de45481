//! What a chunk of Lua evaluates to (Lua 5.4 manual, sections 3.3 and 3.4, as far as served).
#![tactic(auto)]

mod fault;
mod find;
mod join;
pub mod laws;
mod run;
mod scope;
mod table;
mod weight;

pub use fault::{EvalFault, ValueKind};
pub use run::evaluate;
