use rocks_text::{FilePath, Item};

/// What a file is in a rock.
#[derive(Debug, Drop)]
pub enum Part {
    /// A file that is deployed.
    Item(Item),
    /// A file of the rock's own folder, by its path there.
    Own(FilePath),
}

/// A file that becomes one of a rock's.
#[derive(Debug, Drop)]
pub struct Source {
    pub part: Part,
    /// Its path in the folder that is read.
    pub from: FilePath,
}

/// One step in making a rock.
#[derive(Debug, Drop)]
pub enum Step {
    /// A file is read.
    Read(Source),
    /// A folder was named that has no file. There is nothing to read, so the step fails.
    NoFile(FilePath),
}
