ghost use Rattle.std.specs.Prelude.{◌≡◌, ◌++◌, [], map, IfOk, OnOk, OnErr};
ghost use Rattle.disk_paths.specs.Places.{changed_at, whole_of};
ghost use Rattle.disk_paths.specs.Unsynced.{AreSamePaths, AreSynced, IsDescending};

use crate::{DiskError, is_absence, place};
use rocks_bytes::Text;
use std::alloc::{AllocError, Global};
use std::fs;
use std::fs::OpenFile;
use std::rt::Files;

/// What has changed below a tree's folder since the last sync that was done.
#[derive(Drop)]
pub struct Unsynced {
    /// Relative paths; the empty one is the tree's own folder.
    pub paths: Vec<Text>,
    /// Folders outside the tree that were made to hold it, and the one that holds these.
    pub above: Vec<Text>,
}

/// A relative path at which a change is noted, or the empty path where the tree's own folder is made. Only `note` and
/// `note_above` make one, so a function that changes the disk where this says changes nothing that isn't noted.
#[derive(Drop)]
pub struct Noted {
    path: Text,
}

impl Noted {
    /// The path, to be read.
    pub fn path(&self) -> &str
        ensures { result.now ≡ self.now.path }
    {
        self.path.as_str()
    }
}

/// A path of the file system that was made durable. Only a sync makes one.
#[derive(Drop)]
pub struct Synced {
    at: Text,
}

/// What one sync has made durable.
#[derive(Drop)]
pub struct AllSynced {
    /// What stands below the tree's folder, and that folder.
    pub below: Vec<Synced>,
    /// Folders outside the tree.
    pub above: Vec<Synced>,
}

impl Unsynced {
    /// Nothing has changed.
    pub fn new(alloc: Global) -> Unsynced
        ensures paths { result.paths.items ≡ [] }
        ensures above { result.above.items ≡ [] }
    {
        Unsynced {
            paths: Vec::new(alloc),
            above: Vec::new(alloc),
        }
    }

    /// Notes a change at a relative path, with the folders above it. The only error is want of memory, and then nothing
    /// more is noted.
    pub fn note(&mut self, alloc: Global, path: &str) -> Result<Noted, AllocError>
        ensures path { IfOk result (λ noted. noted.path ≡ path.now) }
        ensures ok { OnOk result
            (self.new.paths.items ≡ self.old.paths.items ++ changed_at path.now) }
        ensures err { OnErr result (self.new.paths.items ≡ self.old.paths.items) }
        ensures above { self.new.above.items ≡ self.old.above.items }
    {
        let mut changed = place::changed_at(alloc, path)?;
        let path = Text::from(String::from_str(alloc, path)?);
        self.paths.append(&mut changed)?;
        Ok(Noted { path })
    }

    /// Notes folders outside the tree, and so that the tree's own folder is made in them. The only error is want of
    /// memory, and then nothing more is noted.
    pub fn note_above(&mut self, alloc: Global, mut folders: Vec<Text>) -> Result<Noted, AllocError>
        ensures path { IfOk result (λ noted. noted.path ≡ []) }
        ensures ok { OnOk result (self.new.above.items ≡ self.old.above.items ++ folders.items) }
        ensures err { OnErr result (self.new.above.items ≡ self.old.above.items) }
        ensures paths { self.new.paths.items ≡ self.old.paths.items }
    {
        self.above.append(&mut folders)?;
        Ok(Noted {
            path: Text::from(String::new(alloc)),
        })
    }

    /// Makes all that is noted durable, each path once and folders after what they hold, and answers what it has made
    /// so. Nothing is noted then; where it fails, all stays noted.
    pub fn sync<R: Files + AllocGlobal>(
        &mut self,
        rt: &R,
        root: &str,
    ) -> Result<AllSynced, DiskError>
        ensures below { IfOk result (λ all. AreSynced root.now self.old.paths.items
            (map (λ synced. synced.at) all.below.items)) }
        ensures outside { IfOk result (λ all.
            map (λ synced. synced.at) all.above.items ≡ map (whole_of []) self.old.above.items) }
        ensures paths { OnOk result (self.new.paths.items ≡ []) }
        ensures above { OnOk result (self.new.above.items ≡ []) }
        ensures paths_kept { OnErr result (AreSamePaths self.old.paths.items self.new.paths.items) }
        ensures above_kept { OnErr result (self.new.above.items ≡ self.old.above.items) }
    {
        put_in_order(&mut self.paths);
        let below = sync_each(rt, root, &self.paths)?;
        let above = sync_each(rt, "", &self.above)?;
        self.paths.clear();
        self.above.clear();
        Ok(AllSynced { below, above })
    }
}

// Puts each path behind those that are greater, and once.
fn put_in_order(paths: &mut Vec<Text>)
    ensures same { AreSamePaths paths.old.items paths.new.items }
    ensures order { IsDescending paths.new.items }
{
    paths.sort_unstable();
    paths.dedup();
    paths.reverse();
}

// Makes these paths below a folder durable, in this order.
fn sync_each<R: Files + AllocGlobal>(
    rt: &R,
    root: &str,
    paths: &[Text],
) -> Result<Vec<Synced>, DiskError>
    ensures { IfOk result (λ all.
        map (λ synced. synced.at) all.items ≡ map (whole_of root.now) paths.now) }
{
    let mut all = Vec::new(rt.alloc());
    for path in paths {
        all.push(sync_one(rt, root, path.as_str())?)?;
    }
    Ok(all)
}

// Makes a file or folder below a root durable, where it is still there; the empty path is the root. It follows a link,
// since the root may be one.
fn sync_one<R: Files + AllocGlobal>(rt: &R, root: &str, path: &str) -> Result<Synced, DiskError>
    ensures { IfOk result (λ synced. synced.at ≡ whole_of root.now path.now) }
{
    let at = place::whole(rt.alloc(), root, path)?;
    match fs::open(rt, at.as_str()) {
        Ok(opened) => opened.sync_all()?,
        Err(error) if is_absence(&error) => {}
        Err(error) => return Err(DiskError::from(error)),
    }
    Ok(Synced { at: Text::from(at) })
}
