//! Tests of claims, by their public calls.
#![tactic(auto)]

#[cfg(test)]
mod changes;
#[cfg(test)]
mod claims;
#[cfg(test)]
mod rocks;
#[cfg(test)]
mod speed;
