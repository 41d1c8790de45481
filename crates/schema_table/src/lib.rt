//! Which keys a table may have, of what shape, from which format on, and which must be there.
#![tactic(auto)]

mod absence;
mod checking;
mod fault;
pub mod laws;
mod matching;
mod row;
mod shapes;
mod visits;

pub use checking::check;
pub use fault::ShapeFault;
pub use row::{Format, Must, Row, Shape};
