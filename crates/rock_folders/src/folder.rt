use rock_manifest::Record;
use rocks_constraint::Dependency;
use rocks_version::RockKey;
use sqlite_items::Items;

/// What the folder of a rock in a tree says of the rock.
#[derive(Debug, Drop)]
pub struct Folder {
    pub key: RockKey,
    /// The record of its files, the rockspec among its own.
    pub record: Record,
    /// What its rockspec says, or None where the folder has none.
    pub rockspec: Option<FoundRockspec>,
}

/// What is kept of the rockspec in a rock's folder.
#[derive(Debug, Drop)]
pub struct FoundRockspec {
    pub dependencies: Items<Dependency>,
    /// The digest of its bytes.
    pub digest: [u8; 16],
    /// The number of its bytes.
    pub length: usize,
}
