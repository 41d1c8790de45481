//! The values of a Lua text, and its tables as sorted lists of keys and values.
#![tactic(auto)]

mod key;
pub mod laws;
mod table;

pub use key::Key;
pub use table::{Table, Value};
