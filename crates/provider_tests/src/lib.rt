//! Tests of providers, by their public calls.
#![tactic(auto)]

#[cfg(test)]
mod calls;
#[cfg(test)]
mod runs;
