//! The one exact text in which `rocks` prints tables.
#![tactic(auto)]

mod printing;
mod quote;

pub use printing::print;
pub use quote::{print_escapes, print_quoted};
