ghost use Rattle.std.specs.Prelude.{◌≡◌, ◌<◌, Some, IfOk, length, slice_get};
ghost use Rattle.rocks_outside.specs.Shelf.{CountsFaults, IsRead, IsWithin, IsFolderListing};

use crate::disk;
use crate::disk::Stands;
use crate::known_folders::KnownFolders;
use disk_paths::{paths_below, place};
use rocks_bytes::{Bytes, Text};
use rocks_outside::{Shelf, ShelfError, ShelfRead};
use rocks_text::FilePath;
use sqlite_items::Items;
use std::alloc::Global;
use std::rt::Files;

/// Servers in real folders. It tells nothing of what they hold.
///
/// A server's own folder that is missing or no folder is a fault, and so is a link or the like below it.
#[derive(Drop)]
pub struct FolderShelf<R: Files + AllocGlobal + Clone + Drop> {
    rt: R,
    roots: Items<Text>,
    known: KnownFolders,
    faults: u64,
}

impl<R: Files + AllocGlobal + Clone + Drop> FolderShelf<R> {
    /// Servers in these folders, in this order.
    pub fn new(rt: R, roots: Items<Text>) -> FolderShelf<R>
        ensures roots { result.roots ≡ roots }
        ensures faults { result.faults ≡ 0 }
    {
        let known = KnownFolders::new(rt.alloc());
        FolderShelf {
            rt,
            roots,
            known,
            faults: 0,
        }
    }

    fn count<T>(&mut self, answer: &Result<T, ShelfError>)
        ensures roots { self.new.roots ≡ self.old.roots }
        ensures faults { CountsFaults answer.now self.old.faults self.new.faults }
    {
        if let Err(ShelfError::Failed) = answer {
            self.faults = self.faults.saturating_add(1);
        }
    }
}

impl<R: Files + AllocGlobal + Clone + Drop> Shelf for FolderShelf<R> {
    ghost use Rattle.std.specs.Prelude.{None, min, length, ◌^◌, ◌-◌};

    ghost state = { λ s. record {
      holds = None;
      servers = min (length s.roots) (2 ^ 32 - 1);
      faults = s.faults;
    } };

    fn servers(&self) -> u32 {
        self.roots.as_slice().len().min(0xffff_ffff) as u32
    }

    fn read(
        &mut self,
        _alloc: Global,
        server: u32,
        path: &FilePath,
        limit: u32,
    ) -> Result<ShelfRead, ShelfError> {
        let root = root_of(self.roots.as_slice(), server);
        let answer = read_file(&self.rt, &mut self.known, root, path.as_str(), limit);
        self.count(&answer);
        answer
    }

    fn list(
        &mut self,
        alloc: Global,
        server: u32,
        folder: &FilePath,
    ) -> Result<Vec<FilePath>, ShelfError> {
        let root = root_of(self.roots.as_slice(), server);
        let answer = list_files(alloc, &self.rt, &mut self.known, root, folder);
        self.count(&answer);
        answer
    }
}

// The folder of a server.
fn root_of(roots: &[Text], server: u32) -> &str
    requires { server < length roots.now }
    ensures { slice_get roots.now server ≡ Some result.now }
{
    roots[server as usize].as_str()
}

fn read_file<R: Files + AllocGlobal + Clone + Drop>(
    rt: &R,
    known: &mut KnownFolders,
    root: &str,
    path: &str,
    limit: u32,
) -> Result<ShelfRead, ShelfError>
    ensures { IfOk result (IsWithin limit) }
{
    if !known.has_root(rt, root)? {
        return Err(ShelfError::Failed);
    }
    match known.stands_below(rt, root, path)? {
        Stands::Nothing | Stands::Folder => Ok(ShelfRead::Absent),
        Stands::File { length } if length > u64::from(limit) => Ok(ShelfRead::TooLong),
        Stands::File { .. } => Ok(limited(disk::read_whole(rt, root, path)?, limit)),
        Stands::Other => Err(ShelfError::Failed),
    }
}

// What a read with this limit answers of a file with these bytes.
fn limited(bytes: Vec<u8>, limit: u32) -> ShelfRead
    ensures { IsRead limit (Some bytes.items) result }
{
    if bytes.len() > limit as usize {
        return ShelfRead::TooLong;
    }
    ShelfRead::Bytes(Bytes::from(bytes))
}

fn list_files<R: Files + AllocGlobal + Clone + Drop>(
    alloc: Global,
    rt: &R,
    known: &mut KnownFolders,
    root: &str,
    folder: &FilePath,
) -> Result<Vec<FilePath>, ShelfError>
    ensures { IfOk result (λ paths. IsFolderListing folder.now paths.items) }
{
    if !known.has_root(rt, root)? {
        return Err(ShelfError::Failed);
    }
    match known.stands_below(rt, root, folder.as_str())? {
        Stands::Nothing | Stands::File { .. } => return Ok(Vec::new(alloc)),
        Stands::Folder => {}
        Stands::Other => return Err(ShelfError::Failed),
    }
    let at = place::join(alloc, root, folder.as_str())?;
    let names = disk::sorted_files(rt, at.as_str())?;
    Ok(paths_below(alloc, folder, &names)?)
}
