//! Paths of a disk: where they lead, which of the names found there are answered as a listing, and which of them are
//! still to be made durable.
#![tactic(auto)]

mod fault;
mod listing;
pub mod place;
mod unsynced;

pub use fault::{DiskError, is_absence};
pub use listing::{paths_below, paths_from};
pub use unsynced::{AllSynced, Noted, Synced, Unsynced};
