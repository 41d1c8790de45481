//! Tests of records, by their public calls.
#![tactic(auto)]

#[cfg(test)]
mod changed;
#[cfg(test)]
mod many;
#[cfg(test)]
mod refused;
#[cfg(test)]
mod rocks;
#[cfg(test)]
mod written;
