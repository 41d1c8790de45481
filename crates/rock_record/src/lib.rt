//! Rocks with all their files, and the text that names each file with the digest of its bytes.
#![tactic(auto)]

mod digests;
pub mod laws;
mod limits;
mod order;
mod rock;

pub use digests::digest;
pub use limits::{LONGEST_FILE, MOST_BYTES, MOST_FILES};
pub use rock::{Rock, copied_dependencies, rock_manifest_text, rockspec_path};
pub use rock_manifest::{Record, RecordFault, read_rock_manifest};
