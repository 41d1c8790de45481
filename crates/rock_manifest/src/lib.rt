//! Records: the files of a rock with the digests of their bytes, and their text both ways.
#![tactic(auto)]

mod fault;
pub mod laws;
mod lines;
mod order;
mod printed;
mod reader;
mod record;

pub use fault::RecordFault;
pub use printed::record_text;
pub use reader::read_rock_manifest;
pub use record::Record;
