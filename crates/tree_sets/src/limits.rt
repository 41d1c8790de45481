//! How much one tree may have (this project's own).

/// The most rocks of a tree.
pub const MOST_ROCKS: usize = 10_000;

/// The most items and own files that its rocks have together.
pub const MOST_TREE_FILES: usize = 200_000;
