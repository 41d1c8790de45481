//! One run of `rocks`: the command of its words, a tree that is opened, the command carried out, and its reply said.
#![tactic(auto)]

mod add;
mod compare;
mod eval;
mod execution;
mod fault;
pub mod laws;
mod lint;
mod session;
mod status;
mod tree;
mod unmet;

pub use execution::execute;
pub use fault::{OpenFault, SessionFault};
pub use lua_text::EvalFailed;
pub use rocks_command::{Command, RootWords, WordsFault, read_words, roots};
pub use rocks_reply::{BuildFailed, Refusal, Reply};
pub use rocks_version::{RockKey, Version};
pub use session::run;
pub use status::Status;
pub use tree::{Tree, open};
