// What texts stand for. What is found is what is printed so, where anything is.
ghost use Rattle.std.specs.Prelude.{◌≡◌, ◌≤◌, ◌==◌, length, not, IsTrue, IfOk, IfSome, Some};
ghost use Rattle.std.specs.List.{prefix_len};
ghost use Rattle.manifest_text.specs.Text.{key_text};
ghost use Rattle.manifest_text.specs.Views.{IsPath, IsRockKey, IsWanted};
ghost use Rattle.rocks_constraint.specs.Printed.{printed};
ghost use Rattle.rocks_constraint.specs.Wanted.{Wanted};
ghost use Rattle.rocks_text.specs.Texts.{is_name};
ghost use Rattle.rocks_version.specs.Texts.{is_version};
ghost use Rattle.rocks_version.specs.declared.key.RockKey.{RockKey as WholeKey};

use rocks_constraint::Dependency;
use rocks_text::{FilePath, Name, TextFault};
use rocks_version::{RockKey, Version, VersionFault};
use std::alloc::{AllocError, Global};
use std::str;

/// The path that bytes are, if they are one. The only error is want of memory.
pub fn file_path(alloc: Global, bytes: &[u8]) -> Result<Option<FilePath>, AllocError>
    ensures valid { IfOk result (λ found. IfSome found IsPath) }
    ensures known { IfOk result (λ found. IsPath bytes.now → found ≡ Some bytes.now) }
{
    let Ok(text) = str::from_utf8(bytes) else {
        return Ok(None);
    };
    match FilePath::from_text(alloc, text) {
        Ok(path) => Ok(Some(path)),
        Err(TextFault::NoMemory) => Err(AllocError),
        Err(TextFault::BadPath) => Ok(None),
        Err(TextFault::BadName) => Ok(None),
    }
}

/// The name that bytes are, if they are one. The only error is want of memory.
pub fn name(alloc: Global, bytes: &[u8]) -> Result<Option<Name>, AllocError>
    ensures valid { IfOk result (λ found. IfSome found (λ name. IsTrue (is_name name))) }
    ensures known { IfOk result (λ found. IsTrue (is_name bytes.now) → found ≡ Some bytes.now) }
{
    let Ok(text) = str::from_utf8(bytes) else {
        return Ok(None);
    };
    match Name::from_text(alloc, text) {
        Ok(name) => Ok(Some(name)),
        Err(TextFault::NoMemory) => Err(AllocError),
        Err(TextFault::BadPath) => Ok(None),
        Err(TextFault::BadName) => Ok(None),
    }
}

/// The version that bytes are, if they are one. The only error is want of memory.
pub fn version(alloc: Global, bytes: &[u8]) -> Result<Option<Version>, AllocError>
    ensures valid { IfOk result (λ found. IfSome found (λ version. IsTrue (is_version version))) }
    ensures known { IfOk result
        (λ found. IsTrue (is_version bytes.now) → found ≡ Some bytes.now) }
{
    let Ok(text) = str::from_utf8(bytes) else {
        return Ok(None);
    };
    match Version::read(alloc, text) {
        Ok(version) => Ok(Some(version)),
        Err(VersionFault::NoMemory) => Err(AllocError),
        Err(VersionFault::BadVersion { .. }) => Ok(None),
        Err(VersionFault::NumberTooLong { .. }) => Ok(None),
    }
}

/// The rock that a name and a version are, if they are such. The only error is want of memory.
pub fn rock_of(
    alloc: Global,
    name_bytes: &[u8],
    version_bytes: &[u8],
) -> Result<Option<RockKey>, AllocError>
    ensures valid { IfOk result (λ found. IfSome found IsRockKey) }
    ensures known { IfOk result (λ found. (key : WholeKey) → IsRockKey key
        → name_bytes.now ≡ key.name → version_bytes.now ≡ key.version → found ≡ Some key) }
{
    let Some(name) = name(alloc, name_bytes)? else {
        return Ok(None);
    };
    let Some(version) = version(alloc, version_bytes)? else {
        return Ok(None);
    };
    Ok(Some(RockKey { name, version }))
}

/// The rock that `NAME/VERSION` says, if the bytes are such. The only error is want of memory.
pub fn rock_key(alloc: Global, bytes: &[u8]) -> Result<Option<RockKey>, AllocError>
    ensures valid { IfOk result (λ found. IfSome found IsRockKey) }
    ensures known { IfOk result (λ found. (key : WholeKey) → IsRockKey key
        → bytes.now ≡ key_text key → found ≡ Some key) }
{
    let front = before_slash(bytes);
    if front == bytes.len() {
        return Ok(None);
    }
    rock_of(alloc, &bytes[..front], &bytes[front + 1..])
}

// How many bytes stand before the first slash.
fn before_slash(bytes: &[u8]) -> usize
    ensures value { result ≡ prefix_len (λ b. not (b == 47)) bytes.now }
    ensures within { result ≤ length bytes.now }
{
    bytes.iter().take_while(|b| **b != b'/').count()
}

/// The dependency that bytes are, if they are one, of any length. The only error is want of memory.
pub fn dependency(alloc: Global, bytes: &[u8]) -> Result<Option<Dependency>, AllocError>
    ensures valid { IfOk result (λ found. IfSome found IsWanted) }
    ensures known { IfOk result (λ found. (wanted : Wanted) → IsWanted wanted
        → bytes.now ≡ printed wanted.name wanted.constraints → found ≡ Some wanted) }
{
    Dependency::read_unlimited(alloc, bytes)
}
