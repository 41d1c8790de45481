//! Which bytes are the record of a rock.
ghost use Rattle.std.specs.Prelude.{◌≡◌, ◌+◌, ◌≤◌, ◌↔◌, ℕ, List, length, nat_le, not, IfOk, IsTrue, MatchOption};
ghost use Rattle.std.specs.List.{filter, list_any};
ghost use Rattle.std.specs.Ordering.{is_eq};
ghost use Rattle.rocks_text.specs.Files.{path_cmp};
ghost use Rattle.rock_manifest.specs.Records.{IsRecord};
ghost use Rattle.rock_manifest.specs.Text.{record_text};
ghost use Rattle.rock_record.specs.declared.limits.TheConstants.{MOST_FILES as MOST};
ghost use Rattle.twofold_paths.specs.Places.{IsTwofoldPath};
ghost use Rattle.rock_folders.specs.Folders.{IsRecordOf};
ghost use Rattle.rock_folders.specs.Steps.{places_of, IsNoRecordOf};

use crate::places::places_of;
use rock_record::{MOST_FILES, Record, RecordFault, read_rock_manifest, rockspec_path};
use rocks_text::FilePath;
use rocks_version::RockKey;
use std::alloc::{AllocError, Global};
use twofold_paths::least_twofold;

/// The record that the bytes are, if they are the text of one of the rock. The only error is want of memory.
pub fn record_from(alloc: Global, key: &RockKey, bytes: &[u8]) -> Result<Option<Record>, AllocError>
    ensures { IfOk result (λ read. MatchOption read (IsNoRecordOf key.now bytes.now)
        (λ whole. IsRecordOf key.now whole × (bytes.now ≡ record_text whole))) }
{
    match read_rock_manifest(alloc, bytes) {
        Ok(whole) if is_record_of(alloc, key, &whole)? => Ok(Some(whole)),
        Ok(_) => Ok(None),
        Err(RecordFault::BadRecord) => Ok(None),
        Err(RecordFault::NoMemory) => Err(AllocError),
    }
}

// Whether a record names the rockspec, and its other files can be those of the rock.
fn is_record_of(alloc: Global, key: &RockKey, whole: &Record) -> Result<bool, AllocError>
    requires { IsRecord whole.now }
    ensures { IfOk result (λ is. IsTrue is ↔ IsRecordOf key.now whole.now) }
{
    // They are looked at for what their types promise: so the rockspec's name is in no file's way.
    let _name = key.name.as_str();
    let _version = key.version.as_str();
    let rockspec = rockspec_path(alloc, key)?;
    if !has_file(whole, &rockspec) {
        return Ok(false);
    }
    if !has_few_files(whole, &rockspec) {
        return Ok(false);
    }
    stand_apart(alloc, whole)
}

fn has_file(whole: &Record, path: &FilePath) -> bool
    ensures { result ≡ list_any (λ file. is_eq (path_cmp file.0 path.now)) whole.now.own }
{
    whole.own.as_slice().iter().any(|file| file.0 == *path)
}

// Whether a record has at most so many files, without the rockspec.
fn has_few_files(whole: &Record, rockspec: &FilePath) -> bool
    ensures { result ≡ nat_le (length whole.now.items
        + length (filter (λ file. not (is_eq (path_cmp file.0 rockspec.now))) whole.now.own))
        MOST }
{
    let items = whole.items.as_slice();
    let own = whole.own.as_slice();
    items.len() + count_beside(own, rockspec) <= MOST_FILES
}

// How many files there are beside that one.
fn count_beside(files: &[(FilePath, [u8; 16])], path: &FilePath) -> usize
    ensures value { result
        ≡ length (filter (λ file. not (is_eq (path_cmp file.0 path.now))) files.now) }
    ensures within { result ≤ length files.now }
{
    files.iter().filter(|file| file.0 != *path).count()
}

// Whether no file of the record stands in another's way, nor in that of the record.
fn stand_apart(alloc: Global, whole: &Record) -> Result<bool, AllocError>
    ensures { IfOk result (λ apart. IsTrue apart
        ↔ ((path : List ℕ) → ¬ IsTwofoldPath (places_of whole.now) path)) }
{
    let least = least_twofold(alloc, places_of(alloc, whole)?)?;
    Ok(least.is_none())
}
