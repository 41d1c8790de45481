//! Devices and shelves for tests, which fail at one chosen call and at each one behind it.
#![tactic(auto)]

mod failing;

pub use failing::{FailingDevice, FailingShelf};
