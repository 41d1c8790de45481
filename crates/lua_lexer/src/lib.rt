//! The tokens of a Lua 5.4 text (Lua 5.4 manual, section 3.1), with their places, or the first fault.
#![tactic(auto)]

mod bracket;
mod class;
mod element;
mod escape;
mod fault;
pub mod laws;
mod lexer;
mod numeral;
mod quoted;
mod stop;
mod token;
mod vocabulary;
mod word;

pub use fault::LexFault;
pub use lexer::tokens;
pub use lua_names::Keyword;
pub use token::{Token, TokenKind, TokenList};
pub use vocabulary::Symbol;
