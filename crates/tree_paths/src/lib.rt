//! Where the files of rocks stand in a tree, and which of them can't stand beside each other. The places are those of
//! a LuaRocks tree for Lua 5.4.
#![tactic(auto)]

mod conflicting;
pub mod laws;
mod places;

pub use conflicting::conflict;
pub use places::{own_path, plain, rock_folder, versioned};
