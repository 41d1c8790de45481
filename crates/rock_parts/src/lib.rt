//! What the files of a folder become in a rock.
#![tactic(auto)]

mod parts;

pub use parts::{Part, Source, Step};
