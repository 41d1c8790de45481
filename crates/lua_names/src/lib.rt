//! The names and keywords of Lua 5.4 (manual, section 3.1).
#![tactic(auto)]

mod keyword;
pub mod laws;
mod name;

pub use keyword::{Keyword, keyword_of};
pub use name::{is_name, is_name_byte, is_name_start};
