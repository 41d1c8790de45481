use rocks_text::{FilePath, Item};

/// Where a file comes to stand. Items come before configuration files (this project's own).
#[derive(Debug, Drop, PartialEq, Eq, PartialOrd, Ord)]
pub enum Dest {
    /// A file that is deployed.
    Item(Item),
    /// A file of the rock's own folder, by its path below `conf/` there.
    Conf(FilePath),
}

/// A file that a build installs.
#[derive(Debug, Drop, PartialEq, Eq)]
pub struct Target {
    pub to: Dest,
    /// The path in the source folder.
    pub from: FilePath,
}
