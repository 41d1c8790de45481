//! Which bytes are the rockspec of a rock.
ghost use Rattle.std.specs.Prelude.{◌≡◌, ◌≢◌, ◌↔◌, length, IfOk, IsTrue, MatchOption, Some};
ghost use Rattle.md5.specs.Md5.{md5};
ghost use Rattle.rockspec.specs.Specs.{IsSpec, IsFirstSpecFault};
ghost use Rattle.rock_folders.specs.Folders.{IsRockspecOf};
ghost use Rattle.rock_folders.specs.Steps.{IsNoRockspecOf};

use crate::FoundRockspec;
use rock_record::digest;
use rocks_version::RockKey;
use rockspec::{Rockspec, SpecFault};
use std::alloc::{AllocError, Global};

/// What the rockspec says that the bytes are, if they are the rock's. The only error is want of memory.
pub fn rockspec_from(
    alloc: Global,
    key: &RockKey,
    bytes: &[u8],
) -> Result<Option<FoundRockspec>, AllocError>
    ensures { IfOk result (λ read. MatchOption read (IsNoRockspecOf key.now bytes.now)
        (λ found. IsRockspecOf key.now (Some bytes.now) (Some found))) }
{
    match Rockspec::read(alloc, bytes) {
        Ok(spec) => Ok(kept(key, spec, bytes)),
        Err(SpecFault::NoMemory) => Err(AllocError),
        Err(_) => Ok(None),
    }
}

// What is kept of a rockspec, if it is the rock's.
fn kept(key: &RockKey, spec: Rockspec, bytes: &[u8]) -> Option<FoundRockspec>
    requires { IsSpec bytes.now spec }
    ensures { MatchOption result (spec.key ≢ key.now)
        (λ found. (spec.key ≡ key.now) × (found.dependencies ≡ spec.dependencies)
        × (found.digest ≡ md5 bytes.now) × (found.length ≡ length bytes.now)) }
{
    if !is_same(&spec.key, key) {
        return None;
    }
    Some(FoundRockspec {
        dependencies: spec.dependencies,
        digest: digest(bytes),
        length: bytes.len(),
    })
}

fn is_same(left: &RockKey, right: &RockKey) -> bool
    ensures { IsTrue result ↔ (left.now ≡ right.now) }
{
    left == right
}
