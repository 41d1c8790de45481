//! Tests of rocks that are built and taken, by the public calls of the crate that makes them.
#![tactic(auto)]

#[cfg(test)]
mod compare;
#[cfg(test)]
mod faults;
#[cfg(test)]
mod limits;
#[cfg(test)]
mod lists;
#[cfg(test)]
mod made;
#[cfg(test)]
mod served;
#[cfg(test)]
mod shelf_faults;
#[cfg(test)]
mod taken;
#[cfg(test)]
mod told;
