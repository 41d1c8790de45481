//! Tests of what Lua texts evaluate to, by the public calls of the crates that read, evaluate and print them.
#![tactic(auto)]

#[cfg(test)]
mod faults;
#[cfg(test)]
mod globals;
#[cfg(test)]
mod limits;
#[cfg(test)]
mod read;
