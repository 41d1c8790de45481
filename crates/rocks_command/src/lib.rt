//! The words of a command line: what they ask for, and where. No other crate knows a word.
#![tactic(auto)]

mod command;
mod fault;
pub mod laws;
mod words;

pub use command::{Command, RootWords, Wanted};
pub use fault::WordsFault;
pub use words::{read_words, roots};
