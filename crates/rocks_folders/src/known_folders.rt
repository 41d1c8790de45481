use crate::disk;
use crate::disk::Stands;
use disk_paths::{DiskError, Noted, place};
use std::alloc::Global;
use std::collections::BTreeSet;
use std::rt::Files;
use std::{fs, io};

/// The folders that were seen or made, so that none is looked at twice. Nobody else may write them meanwhile.
///
/// The roots stand apart from the folders that are reached from a root through folders alone: a root may be a link, and
/// it may stand below another root.
#[derive(Drop)]
pub(crate) struct KnownFolders {
    roots: BTreeSet<String>,
    // Whole paths, each of a root and a relative path.
    below: BTreeSet<String>,
}

impl KnownFolders {
    /// No folder is known.
    pub(crate) fn new(alloc: Global) -> KnownFolders {
        KnownFolders {
            roots: BTreeSet::new(alloc),
            below: BTreeSet::new(alloc),
        }
    }

    /// Whether a folder stands at a path that a user named, as `disk::has_root` says.
    pub(crate) fn has_root<R: Files + AllocGlobal>(
        &mut self,
        rt: &R,
        root: &str,
    ) -> Result<bool, DiskError> {
        if self.roots.contains(root) {
            return Ok(true);
        }
        let stands = disk::has_root(rt, root)?;
        if stands {
            self.roots.insert(String::from_str(rt.alloc(), root)?)?;
        }
        Ok(stands)
    }

    /// What stands at a relative path below a root: what is below a file or below nothing is nothing, and what is below
    /// a link or the like is such too.
    pub(crate) fn stands_below<R: Files + AllocGlobal>(
        &mut self,
        rt: &R,
        root: &str,
        path: &str,
    ) -> Result<Stands, DiskError> {
        if !self.has_root(rt, root)? {
            return Ok(Stands::Nothing);
        }
        for folder in &place::folders_of(rt.alloc(), path)? {
            match self.stands_folder(rt, root, folder.as_str())? {
                Stands::Folder => {}
                Stands::Other => return Ok(Stands::Other),
                Stands::File { .. } | Stands::Nothing => return Ok(Stands::Nothing),
            }
        }
        let at = place::join(rt.alloc(), root, path)?;
        disk::stands_at(rt, at.as_str())
    }

    /// Makes the folders above a relative path where they are missing, below a root that stands. What stands in a
    /// folder's place makes it fail.
    pub(crate) fn make_above<R: Files + AllocGlobal>(
        &mut self,
        rt: &R,
        root: &str,
        noted: &Noted,
    ) -> Result<(), DiskError> {
        for folder in &place::folders_of(rt.alloc(), noted.path())? {
            match self.stands_folder(rt, root, folder.as_str())? {
                Stands::Folder => {}
                Stands::Nothing => {
                    let at = place::join(rt.alloc(), root, folder.as_str())?;
                    fs::create_dir(rt, at.as_str())?;
                    self.below.insert(at)?;
                }
                Stands::File { .. } | Stands::Other => return Err(DiskError::Failed),
            }
        }
        Ok(())
    }

    /// Removes the folders above a relative path that became empty, the innermost first, and never the root.
    pub(crate) fn remove_empty_above<R: Files + AllocGlobal>(
        &mut self,
        rt: &R,
        root: &str,
        noted: &Noted,
    ) -> Result<(), DiskError> {
        for folder in &place::folders_outward(rt.alloc(), noted.path())? {
            let at = place::join(rt.alloc(), root, folder.as_str())?;
            self.below.remove(at.as_str());
            match fs::remove_dir(rt, at.as_str()) {
                Ok(()) => {}
                Err(error) if error.kind() == io::ErrorKind::DirectoryNotEmpty => return Ok(()),
                Err(error) => return Err(DiskError::from(error)),
            }
        }
        Ok(())
    }

    // What stands at a relative path whose folders are known. A folder is known from then on.
    fn stands_folder<R: Files + AllocGlobal>(
        &mut self,
        rt: &R,
        root: &str,
        folder: &str,
    ) -> Result<Stands, DiskError> {
        let at = place::join(rt.alloc(), root, folder)?;
        if self.below.contains(at.as_str()) {
            return Ok(Stands::Folder);
        }
        let stands = disk::stands_at(rt, at.as_str())?;
        if stands == Stands::Folder {
            self.below.insert(at)?;
        }
        Ok(stands)
    }
}
