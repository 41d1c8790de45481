//! The globals of a rockspec as one table that fits the rows of its format: the tables for platforms are merged first.
#![tactic(auto)]

mod fault;
mod fields;
mod formats;
pub mod laws;
mod lookups;
mod merging;
mod platforms;
mod rows;

pub use fault::TableFault;
pub use fields::{Fields, read_fields};
pub use lookups::{entry_at, table_at, value_at};
pub use rows::row_path;
pub use schema_table::{Format, ShapeFault};
