ghost use Rattle.std.specs.Prelude.{◌≡◌, ◌↔◌, ◌⊎◌, ◌++◌, [], map, IfOk, IfErr, IsErr, OnOk, OnErr};
ghost use Rattle.disk_paths.specs.Places.{changed_at, whole_of};
ghost use Rattle.disk_paths.specs.Unsynced.{AreKept, AreSamePaths, AreSynced};
ghost use Rattle.rocks_outside.specs.Device.{IsListing};

use crate::disk;
use crate::disk::Stands;
use crate::known_folders::KnownFolders;
use disk_paths::{AllSynced, DiskError, Noted, Unsynced, paths_from};
use rocks_bytes::Text;
use rocks_outside::DeviceError;
use rocks_text::TreePath;
use std::alloc::Global;
use std::rt::Files;

/// The files of a tree in a real folder.
///
/// A path where a folder stands has no file. A folder that isn't there is an empty tree. What is neither a plain file
/// nor a folder, as a link, is a fault, so nothing outside the folder is ever written or removed.
#[derive(Drop)]
pub(crate) struct FolderTree<R: Files + AllocGlobal + Clone + Drop> {
    rt: R,
    root: Text,
    known: KnownFolders,
    unsynced: Unsynced,
}

impl<R: Files + AllocGlobal + Clone + Drop> FolderTree<R> {
    /// The tree in this folder.
    pub(crate) fn new(rt: R, root: Text) -> FolderTree<R>
        ensures root { result.root ≡ root }
        ensures unsynced { result.unsynced.paths.items ≡ [] }
    {
        let alloc = rt.alloc();
        FolderTree {
            rt,
            root,
            known: KnownFolders::new(alloc),
            unsynced: Unsynced::new(alloc),
        }
    }

    /// The bytes of a file, or `None` where the path has no file.
    pub(crate) fn read(&mut self, path: &TreePath) -> Result<Option<Vec<u8>>, DeviceError> {
        match self.stands(path)? {
            Stands::Nothing | Stands::Folder => Ok(None),
            Stands::File { .. } => Ok(Some(disk::read_whole(
                &self.rt,
                self.root.as_str(),
                path.as_str(),
            )?)),
            Stands::Other => Err(DeviceError::Failed),
        }
    }

    /// The paths of the files that begin with a prefix, in byte order.
    pub(crate) fn list(&self, alloc: Global, prefix: &str) -> Result<Vec<TreePath>, DeviceError>
        ensures { IfOk result (λ paths. IsListing prefix.now paths.items) }
    {
        let names = disk::sorted_files(&self.rt, self.root.as_str())?;
        Ok(paths_from(alloc, &names, prefix)?)
    }

    /// Puts the bytes at the path, in place of what was there.
    pub(crate) fn write(&mut self, path: &TreePath, bytes: &[u8]) -> Result<(), DeviceError>
        ensures noted { OnOk result (self.new.unsynced.paths.items
            ≡ self.old.unsynced.paths.items ++ changed_at path.now) }
        ensures kept { AreKept self.old.unsynced.paths.items self.new.unsynced.paths.items }
    {
        self.stands_for_a_file(path)?;
        let noted = self.unsynced.note(self.rt.alloc(), path.as_str())?;
        after_a_change(self.put(&noted, bytes))
    }

    /// Moves a file, in place of what was at the new path. It does nothing where the old path has no file.
    pub(crate) fn rename(&mut self, from: &TreePath, to: &TreePath) -> Result<(), DeviceError>
        ensures noted { OnOk result ((self.new.unsynced ≡ self.old.unsynced)
            ⊎ (self.new.unsynced.paths.items
            ≡ self.old.unsynced.paths.items ++ changed_at from.now ++ changed_at to.now)) }
        ensures kept { AreKept self.old.unsynced.paths.items self.new.unsynced.paths.items }
    {
        match self.stands(from)? {
            Stands::Nothing | Stands::Folder => return Ok(()),
            Stands::File { .. } => {}
            Stands::Other => return Err(DeviceError::Failed),
        }
        self.stands_for_a_file(to)?;
        self.move_file(from, to)
    }

    /// Takes a file away. It does nothing where the path has no file.
    pub(crate) fn remove(&mut self, path: &TreePath) -> Result<(), DeviceError>
        ensures noted { OnOk result ((self.new.unsynced ≡ self.old.unsynced)
            ⊎ (self.new.unsynced.paths.items
            ≡ self.old.unsynced.paths.items ++ changed_at path.now)) }
        ensures kept { AreKept self.old.unsynced.paths.items self.new.unsynced.paths.items }
    {
        match self.stands(path)? {
            Stands::Nothing | Stands::Folder => return Ok(()),
            Stands::File { .. } => {}
            Stands::Other => return Err(DeviceError::Failed),
        }
        self.take_away(path)
    }

    /// Makes all changes so far durable, and answers what it has made so. What has changed stays noted until this
    /// answers `Ok`.
    pub(crate) fn sync(&mut self) -> Result<AllSynced, DeviceError>
        ensures synced { IfOk result (λ all. AreSynced self.old.root self.old.unsynced.paths.items
            (map (λ synced. synced.at) all.below.items)) }
        ensures outside { IfOk result (λ all. map (λ synced. synced.at) all.above.items
            ≡ map (whole_of []) self.old.unsynced.above.items) }
        ensures done { OnOk result (self.new.unsynced.paths.items ≡ []) }
        ensures kept { OnErr result
            (AreSamePaths self.old.unsynced.paths.items self.new.unsynced.paths.items) }
    {
        Ok(self.unsynced.sync(&self.rt, self.root.as_str())?)
    }

    fn stands(&mut self, path: &TreePath) -> Result<Stands, DeviceError>
        ensures { self.new.unsynced ≡ self.old.unsynced }
    {
        Ok(
            self.known
                .stands_below(&self.rt, self.root.as_str(), path.as_str())?,
        )
    }

    // Fails where something stands at the path that no file can take the place of.
    fn stands_for_a_file(&mut self, path: &TreePath) -> Result<(), DeviceError>
        ensures { self.new.unsynced ≡ self.old.unsynced }
    {
        match self.stands(path)? {
            Stands::Nothing | Stands::File { .. } => Ok(()),
            Stands::Folder | Stands::Other => Err(DeviceError::Failed),
        }
    }

    fn move_file(&mut self, from: &TreePath, to: &TreePath) -> Result<(), DeviceError>
        ensures noted { OnOk result (self.new.unsynced.paths.items
            ≡ self.old.unsynced.paths.items ++ changed_at from.now ++ changed_at to.now) }
        ensures kept { AreKept self.old.unsynced.paths.items self.new.unsynced.paths.items }
    {
        let alloc = self.rt.alloc();
        let old = self.unsynced.note(alloc, from.as_str())?;
        let new = self.unsynced.note(alloc, to.as_str())?;
        after_a_change(self.make_above(&new))?;
        after_a_change(disk::move_file(&self.rt, self.root.as_str(), &old, &new))?;
        after_a_change(self.remove_empty_above(&old))
    }

    fn take_away(&mut self, path: &TreePath) -> Result<(), DeviceError>
        ensures noted { OnOk result (self.new.unsynced.paths.items
            ≡ self.old.unsynced.paths.items ++ changed_at path.now) }
        ensures kept { AreKept self.old.unsynced.paths.items self.new.unsynced.paths.items }
    {
        let noted = self.unsynced.note(self.rt.alloc(), path.as_str())?;
        after_a_change(disk::remove_file(&self.rt, self.root.as_str(), &noted))?;
        after_a_change(self.remove_empty_above(&noted))
    }

    fn put(&mut self, noted: &Noted, bytes: &[u8]) -> Result<(), DiskError>
        ensures { self.new.unsynced.paths.items ≡ self.old.unsynced.paths.items }
    {
        self.make_above(noted)?;
        disk::write_whole(&self.rt, self.root.as_str(), noted, bytes)
    }

    // Makes the tree's folder and those above the path where they are missing.
    fn make_above(&mut self, noted: &Noted) -> Result<(), DiskError>
        ensures { self.new.unsynced.paths.items ≡ self.old.unsynced.paths.items }
    {
        if !self.known.has_root(&self.rt, self.root.as_str())? {
            let made = disk::missing_above(&self.rt, self.root.as_str())?;
            let noted = self.unsynced.note_above(self.rt.alloc(), made)?;
            disk::make_root(&self.rt, self.root.as_str(), &noted)?;
        }
        self.known.make_above(&self.rt, self.root.as_str(), noted)
    }

    fn remove_empty_above(&mut self, noted: &Noted) -> Result<(), DiskError>
        ensures { self.new.unsynced ≡ self.old.unsynced }
    {
        self.known
            .remove_empty_above(&self.rt, self.root.as_str(), noted)
    }
}

// Want of memory in the midst of a change is a failed change: something may have happened.
fn after_a_change(done: Result<(), DiskError>) -> Result<(), DeviceError>
    ensures same { IsErr result ↔ IsErr done }
    ensures failed { IfErr result (λ error. error ≡ DeviceError.Failed) }
{
    match done {
        Ok(()) => Ok(()),
        Err(_) => Err(DeviceError::Failed),
    }
}
