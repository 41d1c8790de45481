//! The syntax tree of the Lua that rockspecs and manifests are written in (Lua 5.4 manual, sections 3.2 to 3.4,
//! as far as served), or the first place at which a list of tokens stops being one.
#![tactic(auto)]

mod cursor;
mod expression;
mod fault;
pub mod laws;
mod position;
mod statement;
mod table;
mod tree;

pub use fault::{SyntaxFault, Unserved};
pub use statement::chunk;
pub use tree::{Expr, ExprKind, Field, FieldKey, LuaChunk, Named, Statement, Suffix};
