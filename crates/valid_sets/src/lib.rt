//! Which sets of rocks a tree may hold, and that its files tell which set it holds.
#![tactic(auto)]

pub mod laws;
