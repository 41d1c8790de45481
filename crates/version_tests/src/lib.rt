//! Tests of versions and their orders, by their public calls.
#![tactic(auto)]

#[cfg(test)]
mod orders;
#[cfg(test)]
mod texts;
