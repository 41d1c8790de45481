//! Tests of the crate that reads chunks of Lua, by its public calls.
#![tactic(auto)]

#[cfg(test)]
mod depth;
#[cfg(test)]
mod faults;
#[cfg(test)]
mod printed;
#[cfg(test)]
mod trees;
