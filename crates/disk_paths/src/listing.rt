// Tests of listings: what a real folder lists is looked at before it is answered, since nothing is known of a disk.
ghost use Rattle.std.specs.Prelude.{◌≡◌, ◌↔◌, ◌++◌, ◌∷◌, IsTrue, IfOk, IsErrOf, OnOk};
ghost use Rattle.std.specs.Prelude.{map, string_bytes};
ghost use Rattle.std.specs.List.{AllByRecursion, filter, starts_with};
ghost use Rattle.std.specs.Bool.{nat_eq};
ghost use Rattle.std.specs.List.Sorted.{IsStrictlySortedBy};
ghost use Rattle.rocks_text.specs.Files.{path_cmp};
ghost use Rattle.rocks_text.specs.Paths.{IsFolderOf};
ghost use Rattle.rocks_text.specs.Texts.{is_file_path, is_tree_path};
ghost use Rattle.disk_paths.specs.Listings.{HasNoneBelow, IsPathBelow};
ghost use Rattle.disk_paths.specs.Listings.{IsTreeOfNames, IsFolderOfNames};
ghost use Rattle.rocks_outside.specs.Device.{IsAscending, IsListing};
ghost use Rattle.rocks_outside.specs.Shelf.{IsFolderListing};

use crate::DiskError;
use rocks_text::{FilePath, TextFault, TreePath};
use std::alloc::Global;
use std::cmp::Ordering;

/// The files of a tree that begin with a prefix, from the names of all its files.
///
/// `Failed` only where the names don't ascend or one of them, whatever it begins with, is no path of a tree.
pub fn paths_from(alloc: Global, names: &[String], prefix: &str) -> Result<Vec<TreePath>, DiskError>
    ensures value { IfOk result (λ paths. paths.items
        ≡ filter (λ name. starts_with nat_eq name prefix.now) (map string_bytes names.now)) }
    ensures form { IfOk result (λ paths. IsListing prefix.now paths.items) }
    ensures cause { IsErrOf result DiskError.Failed
        → IsTreeOfNames (map string_bytes names.now) → ⊥ }
{
    if !is_ascending(names) {
        return Err(DiskError::Failed);
    }
    let mut paths = Vec::new(alloc);
    for name in names {
        let path = tree_path(alloc, name.as_str())?;
        if begins(path.as_str(), prefix) {
            paths.push(path)?;
        }
    }
    Ok(paths)
}

/// The files below a folder of a server, from their names relative to it.
///
/// `Failed` only where the names don't ascend, or one lies below another, or one is no path of a server, itself or
/// with the folder before it.
pub fn paths_below(
    alloc: Global,
    folder: &FilePath,
    names: &[String],
) -> Result<Vec<FilePath>, DiskError>
    ensures value { IfOk result (λ paths. paths.items ≡ map string_bytes names.now) }
    ensures form { IfOk result (λ paths. IsFolderListing folder.now paths.items) }
    ensures cause { IsErrOf result DiskError.Failed
        → IsFolderOfNames folder.now (map string_bytes names.now) → ⊥ }
{
    if !is_ascending(names) || !are_apart(names) {
        return Err(DiskError::Failed);
    }
    file_paths(alloc, folder, names)
}

// Whether the names stand in byte order, each once.
fn is_ascending(names: &[String]) -> bool
    ensures { IsTrue result ↔ IsAscending (map string_bytes names.now) }
{
    let mut rest = names;
    while let [first, tail @ ..] = rest {
        if let [second, ..] = tail {
            match first.as_bytes().cmp(second.as_bytes()) {
                Ordering::Less => {}
                _ => return false,
            }
        }
        rest = tail;
    }
    true
}

// Whether a text begins with another.
fn begins(text: &str, prefix: &str) -> bool
    ensures { result ≡ starts_with nat_eq text.now prefix.now }
{
    text.starts_with(prefix)
}

// Whether no name is that of a folder of another.
fn are_apart(names: &[String]) -> bool
    requires { IsAscending (map string_bytes names.now) }
    ensures { IsTrue result
        ↔ AllByRecursion (HasNoneBelow (map string_bytes names.now)) (map string_bytes names.now) }
{
    let mut rest = names;
    while let [first, tail @ ..] = rest {
        if !none_below(first.as_str(), tail) {
            return false;
        }
        rest = tail;
    }
    true
}

// Whether none of the names behind a folder's own is below it. Those that begin with its name stand first.
fn none_below(folder: &str, names: &[String]) -> bool
    requires { IsStrictlySortedBy path_cmp (folder.now ∷ map string_bytes names.now) }
    ensures { IsTrue result ↔ HasNoneBelow (map string_bytes names.now) folder.now }
{
    let mut rest = names;
    while let [first, tail @ ..] = rest {
        if !begins(first.as_str(), folder) {
            return true;
        }
        if is_folder_of(folder, first.as_str()) {
            return false;
        }
        rest = tail;
    }
    true
}

fn is_folder_of(folder: &str, path: &str) -> bool
    ensures { IsTrue result ↔ IsFolderOf folder.now path.now }
{
    match path.strip_prefix(folder) {
        Some(rest) => matches!(rest.as_bytes(), [b'/', ..]),
        None => false,
    }
}

fn tree_path(alloc: Global, text: &str) -> Result<TreePath, DiskError>
    ensures same { IfOk result (λ path. path ≡ text.now) }
    ensures cause { IsErrOf result DiskError.Failed → IsTrue (is_tree_path text.now) → ⊥ }
{
    match TreePath::from_text(alloc, text) {
        Ok(path) => Ok(path),
        Err(TextFault::NoMemory) => Err(DiskError::NoMemory),
        Err(_) => Err(DiskError::Failed),
    }
}

// The names as paths below a folder of a server.
fn file_paths(
    alloc: Global,
    folder: &FilePath,
    names: &[String],
) -> Result<Vec<FilePath>, DiskError>
    ensures same { IfOk result (λ paths. paths.items ≡ map string_bytes names.now) }
    ensures whole { IfOk result (λ paths.
        AllByRecursion (λ path. IsTrue (is_file_path (folder.now ++ 47 ∷ path))) paths.items) }
    ensures cause { IsErrOf result DiskError.Failed
        → AllByRecursion (IsPathBelow folder.now) (map string_bytes names.now) → ⊥ }
{
    let mut paths = Vec::new(alloc);
    for name in names {
        paths.push(file_path(alloc, folder, name.as_str())?)?;
    }
    Ok(paths)
}

fn file_path(alloc: Global, folder: &FilePath, name: &str) -> Result<FilePath, DiskError>
    ensures same { IfOk result (λ path. path ≡ name.now) }
    ensures whole { IfOk result (λ path. IsTrue (is_file_path (folder.now ++ 47 ∷ path))) }
    ensures cause { IsErrOf result DiskError.Failed → IsPathBelow folder.now name.now → ⊥ }
{
    let folder = folder.as_str();
    let whole = format!(in alloc; "{folder}/{name}")?;
    parsed(alloc, whole.as_str())?;
    parsed(alloc, name)
}

fn parsed(alloc: Global, text: &str) -> Result<FilePath, DiskError>
    ensures same { IfOk result (λ path. path ≡ text.now) }
    ensures good { OnOk result (IsTrue (is_file_path text.now)) }
    ensures cause { IsErrOf result DiskError.Failed → IsTrue (is_file_path text.now) → ⊥ }
{
    match FilePath::from_text(alloc, text) {
        Ok(path) => Ok(path),
        Err(TextFault::NoMemory) => Err(DiskError::NoMemory),
        Err(_) => Err(DiskError::Failed),
    }
}
