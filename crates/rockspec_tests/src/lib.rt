//! Tests of what rockspecs say, by the public calls of the crate that reads them.
#![tactic(auto)]

#[cfg(test)]
mod compare;
#[cfg(test)]
mod dependencies;
#[cfg(test)]
mod keys;
#[cfg(test)]
mod laws;
#[cfg(test)]
mod order;
#[cfg(test)]
mod plans;
#[cfg(test)]
mod platforms;
#[cfg(test)]
mod refused;
#[cfg(test)]
mod shapes;
#[cfg(test)]
mod told;
#[cfg(test)]
mod whole;
