ghost use Rattle.std.specs.Prelude.{◌≡◌, ◌&&◌, false, if◌then◌else◌, IfOk, IsTrue, MatchOption, None, Some};
ghost use Rattle.rocks_text.specs.Texts.{is_name, lowered};
ghost use Rattle.rocks_version.specs.Texts.{is_rock_version, is_version};
ghost use Rattle.rock_folders.specs.Found.{AreFound, IsKeyAt};

use rocks_text::{Name, TextFault, TreePath};
use rocks_version::{RockKey, Version, VersionFault};
use std::alloc::{AllocError, Global};

/// The folder of the folders of all rocks.
const ROCKS_FOLDER: &str = "lib/luarocks/rocks-5.4/";

/// The rocks that are found among the paths of a tree, in the order of the paths of their records: a rock is found where its
/// folder `lib/luarocks/rocks-5.4/NAME/VERSION/` has a file `rock_manifest`, NAME being a name as it stands and VERSION a
/// rock's version (this project's own). The only error is want of memory.
pub fn found_rocks(alloc: Global, paths: &[TreePath]) -> Result<Vec<RockKey>, AllocError>
    ensures { IfOk result (λ keys. AreFound paths.now keys.items) }
{
    let mut keys = Vec::new(alloc);
    for path in paths {
        if let Some(key) = found_key(alloc, path)? {
            keys.push(key)?;
        }
    }
    Ok(keys)
}

// The rock whose record has that path, if it is one's.
fn found_key(alloc: Global, path: &TreePath) -> Result<Option<RockKey>, AllocError>
    ensures { IfOk result (IsKeyAt path.now) }
{
    let Some(below) = path.as_str().strip_prefix(ROCKS_FOLDER) else {
        return Ok(None);
    };
    let Some((name, behind)) = below.split_once('/') else {
        return Ok(None);
    };
    match behind.split_once('/') {
        Some((version, file)) if file == "rock_manifest" => key_from(alloc, name, version),
        _ => Ok(None),
    }
}

// The rock of a name and a version, if they are such as they stand.
fn key_from(alloc: Global, name: &str, version: &str) -> Result<Option<RockKey>, AllocError>
    ensures { IfOk result (λ key. key ≡ (if is_name name.now && is_rock_version version.now
        then Some (record { name = name.now; version = version.now }) else None)) }
{
    match (name_of(alloc, name)?, version_of(alloc, version)?) {
        (Some(name), Some(version)) => Ok(Some(RockKey { name, version })),
        _ => Ok(None),
    }
}

#[tactic(auto, using(crate::proofs::Texts::no_name_lowered))]
fn name_of(alloc: Global, text: &str) -> Result<Option<Name>, AllocError>
    ensures { IfOk result (λ name. name ≡ (if is_name text.now then Some text.now else None)) }
{
    match Name::from_text(alloc, text) {
        Ok(name) => Ok(as_it_stands(name, text)),
        Err(TextFault::NoMemory) => Err(AllocError),
        Err(TextFault::BadName) => Ok(None),
        Err(TextFault::BadPath) => Ok(None),
    }
}

// The name, if the text that was put into lower case for it was in lower case.
#[tactic(auto, using(crate::proofs::Texts::no_name_apart))]
fn as_it_stands(name: Name, text: &str) -> Option<Name>
    requires { name ≡ lowered text.now }
    ensures { result ≡ (if is_name text.now then Some text.now else None) }
{
    if name.as_str() == text {
        Some(name)
    } else {
        None
    }
}

#[tactic(auto, using(crate::proofs::Texts::no_rock_version))]
fn version_of(alloc: Global, text: &str) -> Result<Option<Version>, AllocError>
    ensures { IfOk result
        (λ version. version ≡ (if is_rock_version text.now then Some text.now else None)) }
{
    match version(alloc, text)? {
        Some(version) if version.is_rock_version() => Ok(Some(version)),
        _ => Ok(None),
    }
}

#[tactic(auto, using(crate::proofs::Texts::no_version, crate::proofs::Texts::some_version))]
fn version(alloc: Global, text: &str) -> Result<Option<Version>, AllocError>
    ensures { IfOk result (λ read. MatchOption read (is_version text.now ≡ false)
        (λ version. IsTrue (is_version text.now) × (version ≡ text.now))) }
{
    match Version::read(alloc, text) {
        Ok(version) => Ok(Some(version)),
        Err(VersionFault::NoMemory) => Err(AllocError),
        Err(_) => Ok(None),
    }
}
