//! The locals and the globals of a Lua text that is being evaluated.
#![tactic(auto)]

mod globals;
pub mod laws;
mod locals;

pub use globals::Globals;
pub use locals::Locals;
