//! Tests of texts and places, by their public calls.
#![tactic(auto)]

#[cfg(test)]
mod modules;
#[cfg(test)]
mod places;
#[cfg(test)]
mod texts;
