//! Names of packages, and paths of files within rocks, servers and trees.
#![tactic(auto)]

mod fault;
mod item;
pub mod laws;
mod module;
mod name;
mod path;

pub use fault::TextFault;
pub use item::{Item, Kind};
pub use module::{is_module_name, module_path};
pub use name::Name;
pub use path::{FilePath, TREE_PATH, TreePath};
