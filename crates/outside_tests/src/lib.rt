//! Tests of devices, shelves and sources, in memory and over real folders, by their public calls.
#![tactic(auto)]

#[cfg(test)]
mod calls;
#[cfg(test)]
mod folders;
#[cfg(test)]
mod outside;
#[cfg(test)]
mod reads;
