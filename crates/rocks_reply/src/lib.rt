//! The answers to commands: the lines that are said, and why a command was refused.
#![tactic(auto)]

mod reply;

pub use reply::{BuildFailed, Refusal, Reply, added_text, refused};
