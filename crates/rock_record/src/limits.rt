//! How much one rock may have (this project's own).

/// The longest file of a rock, in bytes.
pub const LONGEST_FILE: u32 = 16_777_216;

/// The most files of a rock, its own among them, without the rockspec.
pub const MOST_FILES: usize = 5_000;

/// The most bytes that these files have together.
pub const MOST_BYTES: usize = 67_108_864;
