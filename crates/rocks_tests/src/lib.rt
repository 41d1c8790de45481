//! Tests of whole runs, by their public calls.
#![tactic(auto)]

#[cfg(test)]
mod session;
