//! Tests of manifests and of moves, by their public calls.
#![tactic(auto)]

#[cfg(test)]
mod manifests;
#[cfg(test)]
mod moving;
