//! Tests of dependencies, by their public calls.
#![tactic(auto)]

#[cfg(test)]
mod meeting;
#[cfg(test)]
mod texts;
