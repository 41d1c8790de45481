//! A list that grows at any place at a small cost.
#![tactic(auto)]

mod block;
mod list;
mod place;
mod room;

pub use list::ChunkedList;
