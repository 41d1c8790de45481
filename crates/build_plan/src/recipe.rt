use build_targets::Target;
use rocks_text::FilePath;
use sqlite_items::Items;

/// What a build installs.
#[derive(Debug, Drop)]
pub struct Recipe {
    /// In order of where they come to stand, which differs.
    pub files: Items<Target>,
    /// Folders of the source folder that are copied into the rock's own folder, in the order of their bytes.
    pub folders: Items<FilePath>,
}
