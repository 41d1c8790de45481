//! What a Lua text comes to: its globals, or its first fault and how that is told.
#![tactic(auto)]

mod fault;
pub mod laws;
mod read;

pub use fault::EvalFailed;
pub use read::globals;
