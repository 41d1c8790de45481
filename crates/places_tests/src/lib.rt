//! Tests of places in a tree, by their public calls.
#![tactic(auto)]

#[cfg(test)]
mod places;
#[cfg(test)]
mod rocks;
