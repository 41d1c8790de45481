use rocks_text::FilePath;

/// Where something comes to stand. Places are ordered by sort and then by path (this project's own).
#[derive(Debug, Drop, PartialEq, Eq, PartialOrd, Ord)]
pub struct Place {
    /// Places of different sorts are never in each other's way.
    pub sort: u8,
    pub path: FilePath,
}
