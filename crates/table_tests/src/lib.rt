//! Tests of tables and of their printing, by their public calls.
#![tactic(auto)]

#[cfg(test)]
mod made;
#[cfg(test)]
mod plain;
#[cfg(test)]
mod printing;
#[cfg(test)]
mod tables;
