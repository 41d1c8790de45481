// Paths of a file system, and the folders that they name.
ghost use Rattle.std.specs.Prelude.{◌≡◌, ◌++◌, ◌∷◌, [], IfOk, OnOk, reverse, string_bytes};
ghost use Rattle.disk_paths.specs.Places.{changed_at, folders_of, joined, or_top, whole_of};

use rocks_bytes::Text;
use std::alloc::{AllocError, Global};

/// `folder/name`, or the name alone in the folder with the empty name.
pub fn join(alloc: Global, folder: &str, name: &str) -> Result<String, AllocError>
    ensures { IfOk result (λ whole. string_bytes whole ≡ joined folder.now name.now) }
{
    if folder.is_empty() {
        return String::from_str(alloc, name);
    }
    format!(in alloc; "{folder}/{name}")
}

/// A relative path below a folder, or the folder itself where the path is empty.
pub fn whole(alloc: Global, folder: &str, path: &str) -> Result<String, AllocError>
    ensures { IfOk result (λ whole. string_bytes whole ≡ whole_of folder.now path.now) }
{
    if path.is_empty() {
        return String::from_str(alloc, folder);
    }
    join(alloc, folder, path)
}

/// The folders that a relative path names, the outermost first.
pub fn folders_of(alloc: Global, path: &str) -> Result<Vec<Text>, AllocError>
    ensures { IfOk result (λ folders. folders.items ≡ folders_of path.now) }
{
    let mut folders = Vec::new(alloc);
    let mut at = String::new(alloc);
    let mut rest = path;
    while let Some((part, behind)) = rest.split_once('/') {
        enter(alloc, &mut folders, &mut at, part)?;
        rest = behind;
    }
    Ok(folders)
}

/// The folders that a relative path names, the innermost first.
pub fn folders_outward(alloc: Global, path: &str) -> Result<Vec<Text>, AllocError>
    ensures { IfOk result (λ folders. folders.items ≡ reverse (folders_of path.now)) }
{
    let mut folders = folders_of(alloc, path)?;
    folders.reverse();
    Ok(folders)
}

// Goes on behind a part and its slash, which name one more folder.
fn enter(
    alloc: Global,
    folders: &mut Vec<Text>,
    at: &mut String,
    part: &str,
) -> Result<(), AllocError>
    ensures folders { OnOk result (folders.new.items
        ≡ folders.old.items ++ (string_bytes at.old ++ part.now) ∷ []) }
    ensures at { OnOk result (string_bytes at.new ≡ string_bytes at.old ++ part.now ++ 47 ∷ []) }
{
    at.push_str(part)?;
    folders.push(text(alloc, at.as_str())?)?;
    at.push('/')
}

/// What a change at a relative path makes anew: the folders above it, itself, and the tree's own folder.
pub fn changed_at(alloc: Global, path: &str) -> Result<Vec<Text>, AllocError>
    ensures { IfOk result (λ changed. changed.items ≡ changed_at path.now) }
{
    let mut changed = folders_of(alloc, path)?;
    changed.push(text(alloc, path)?)?;
    changed.push(text(alloc, "")?)?;
    Ok(changed)
}

fn text(alloc: Global, bytes: &str) -> Result<Text, AllocError>
    ensures { IfOk result (λ text. text ≡ bytes.now) }
{
    Ok(Text::from(String::from_str(alloc, bytes)?))
}

/// The folder that a path of the file system names before one of its slashes: the topmost one where that is the first.
pub fn or_top(folder: &str) -> &str
    ensures { result.now ≡ or_top folder.now }
{
    if folder.is_empty() { "/" } else { folder }
}
