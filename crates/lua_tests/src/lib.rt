//! Tests of the crates that read Lua, by their public calls.
#![tactic(auto)]

#[cfg(test)]
mod names;
#[cfg(test)]
mod tokens;
