// What the real device and shelf need of a file system. No call follows a link below the folder that it is given.
use disk_paths::place::join;
use disk_paths::{DiskError, Noted, is_absence, place};
use rocks_bytes::Text;
use rocks_text::TREE_PATH;
use std::fs::OpenFile;
use std::io::Write;
use std::rt::Files;
use std::{fs, io};

/// What stands at a path.
#[derive(Clone, Copy, Debug, PartialEq, Eq)]
pub(crate) enum Stands {
    Nothing,
    /// A plain file, and its length in bytes.
    File { length: u64 },
    Folder,
    /// A link, or a device, a pipe or a socket.
    Other,
}

/// What stands at a path, itself and not what a link leads to.
pub(crate) fn stands_at(files: &impl Files, path: &str) -> Result<Stands, DiskError> {
    match fs::symlink_metadata(files, path) {
        Ok(found) if found.is_file() => Ok(Stands::File {
            length: found.len(),
        }),
        Ok(found) if found.is_dir() => Ok(Stands::Folder),
        Ok(_) => Ok(Stands::Other),
        Err(error) if is_absence(&error) => Ok(Stands::Nothing),
        Err(error) => Err(DiskError::from(error)),
    }
}

/// Whether a folder stands at a path that a user named, which may be a link to one. It is false where nothing is. The
/// empty path names no folder, so it fails, and so does a link that leads to nothing.
pub(crate) fn has_root(files: &impl Files, root: &str) -> Result<bool, DiskError> {
    if root.is_empty() {
        return Err(DiskError::Failed);
    }
    match fs::metadata(files, root) {
        Ok(found) if found.is_dir() => Ok(true),
        Ok(_) => Err(DiskError::Failed),
        Err(error) if error.kind() == io::ErrorKind::NotFound => {
            match stands_at(files, root.trim_end_matches('/'))? {
                Stands::Nothing => Ok(false),
                _ => Err(DiskError::Failed),
            }
        }
        Err(error) => Err(DiskError::from(error)),
    }
}

/// The folders that are missing above a missing root, and the one that holds them all, the innermost first. It is the
/// one that the program runs in where all that a relative root names are missing.
pub(crate) fn missing_above<R: Files + AllocGlobal>(
    rt: &R,
    root: &str,
) -> Result<Vec<Text>, DiskError> {
    let alloc = rt.alloc();
    let mut missing = Vec::new(alloc);
    for folder in &place::folders_outward(alloc, root.trim_end_matches('/'))? {
        let folder = place::or_top(folder.as_str());
        missing.push(Text::from(String::from_str(alloc, folder)?))?;
        if has_root(rt, folder)? {
            return Ok(missing);
        }
    }
    missing.push(Text::from(String::from_str(alloc, ".")?))?;
    Ok(missing)
}

/// The relative paths of all plain files below a folder, sorted by their bytes; none where the folder isn't there. A
/// name that isn't UTF-8, a path that is too long and anything that is neither a plain file nor a folder make it fail.
pub(crate) fn sorted_files<R: Files + AllocGlobal + Clone + Drop>(
    rt: &R,
    root: &str,
) -> Result<Vec<String>, DiskError> {
    if !has_root(rt, root)? {
        return Ok(Vec::new(rt.alloc()));
    }
    let mut names = walk(rt, root)?;
    names.sort()?;
    Ok(names)
}

fn walk<R: Files + AllocGlobal + Clone + Drop>(
    rt: &R,
    root: &str,
) -> Result<Vec<String>, DiskError> {
    let alloc = rt.alloc();
    let mut found = Vec::new(alloc);
    let mut pending = Vec::new(alloc);
    pending.push(String::new(alloc))?;
    for _ in 0..u64::MAX {
        let Some(folder) = pending.pop() else {
            break;
        };
        walk_folder(rt, root, folder.as_str(), &mut pending, &mut found)?;
    }
    Ok(found)
}

fn walk_folder<R: Files + AllocGlobal + Clone + Drop>(
    rt: &R,
    root: &str,
    folder: &str,
    pending: &mut Vec<String>,
    found: &mut Vec<String>,
) -> Result<(), DiskError> {
    let alloc = rt.alloc();
    let whole = place::whole(alloc, root, folder)?;
    for entry in fs::read_dir(rt, whole.as_str())? {
        let entry = entry?;
        let path = join(alloc, folder, entry.file_name())?;
        let at = join(alloc, root, path.as_str())?;
        // No path of a server is longer than one of a tree.
        if path.len() > TREE_PATH {
            return Err(DiskError::Failed);
        }
        match stands_at(rt, at.as_str())? {
            Stands::File { .. } => found.push(path)?,
            Stands::Folder => pending.push(path)?,
            Stands::Nothing | Stands::Other => return Err(DiskError::Failed),
        }
    }
    Ok(())
}

/// The bytes of a whole file below a root.
pub(crate) fn read_whole<R: Files + AllocGlobal>(
    rt: &R,
    root: &str,
    path: &str,
) -> Result<Vec<u8>, DiskError> {
    let at = join(rt.alloc(), root, path)?;
    Ok(fs::read(rt, at.as_str())?)
}

/// Writes a whole file below a root, in place of what was there.
pub(crate) fn write_whole<R: Files + AllocGlobal>(
    rt: &R,
    root: &str,
    noted: &Noted,
    bytes: &[u8],
) -> Result<(), DiskError> {
    let at = join(rt.alloc(), root, noted.path())?;
    let mut file = fs::create(rt, at.as_str())?;
    file.write_all(bytes)?;
    Ok(())
}

/// Makes a root, and the folders above it that are missing.
pub(crate) fn make_root<R: Files + AllocGlobal>(
    rt: &R,
    root: &str,
    noted: &Noted,
) -> Result<(), DiskError> {
    let at = place::whole(rt.alloc(), root, noted.path())?;
    Ok(fs::create_dir_all(rt, at.as_str())?)
}

/// Moves a file below a root, in place of what was at the new path.
pub(crate) fn move_file<R: Files + AllocGlobal>(
    rt: &R,
    root: &str,
    from: &Noted,
    to: &Noted,
) -> Result<(), DiskError> {
    let old = join(rt.alloc(), root, from.path())?;
    let new = join(rt.alloc(), root, to.path())?;
    Ok(fs::rename(rt, old.as_str(), new.as_str())?)
}

/// Takes a file below a root away.
pub(crate) fn remove_file<R: Files + AllocGlobal>(
    rt: &R,
    root: &str,
    noted: &Noted,
) -> Result<(), DiskError> {
    let at = join(rt.alloc(), root, noted.path())?;
    Ok(fs::remove_file(rt, at.as_str())?)
}
