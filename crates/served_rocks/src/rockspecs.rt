ghost use Rattle.std.specs.Prelude.{◌≡◌, ◌≤◌, IfErr, IfOk, MatchResult, Err, Ok, length};
ghost use Rattle.served_rocks.specs.Asking.{AsksFor};
ghost use Rattle.served_rocks.specs.Rockspecs.{IsServed, IsUnserved, IsChecked, HasNoSpec};
ghost use Rattle.served_rocks.specs.Rockspecs.{absent, is_of_rock, matching, spec_path};
ghost use Rattle.served_rocks.specs.Rockspecs.{spec_too_large, IsMismatch};

use crate::Unserved;
use crate::search::{Found, find};
use rock_build::unpacked_rockspec;
use rock_record::rockspec_path;
use rocks_bytes::Bytes;
use rocks_outside::{Shelf, ShelfError};
use rocks_reply::Refusal;
use rocks_text::FilePath;
use rocks_version::RockKey;
use rockspec::{LONGEST_ROCKSPEC, Rockspec, SpecFault};
use std::alloc::{AllocError, Global};

/// Where a rock comes from.
#[derive(Clone, Copy, Debug, PartialEq, Eq)]
pub enum Origin {
    /// The folder `NAME-VERSION.rock/` of a server, which has its rockspec.
    Unpacked,
    /// The folder `NAME-VERSION/` of a server, beside its rockspec.
    Sources,
}

/// The rockspec of a rock, as a server has it.
#[derive(Debug, Drop)]
pub struct Served {
    pub server: u32,
    pub bytes: Bytes,
    pub spec: Rockspec,
}

/// Reads the rockspec of a rock on the earliest server that has it.
///
/// The refusals are, in this order: `NoRock` or `NoRockspec`, by the origin, where no server has the file; `Spec` where
/// it is no rockspec, one that is too long among them; `NotTheRock` where its name or version is another. `Failed` comes
/// only where the shelf failed in the call, and `NoMemory` where memory runs out.
pub fn find_rockspec<F: Shelf>(
    alloc: Global,
    shelf: &mut F,
    key: &RockKey,
    origin: Origin,
) -> Result<Served, Unserved>
    ensures served { IfOk result (IsServed origin key.now (F.state shelf.old)) }
    ensures unserved { IfErr result (IsUnserved origin key.now (F.state shelf.old).holds) }
    ensures asks { AsksFor result (F.state shelf.old) (F.state shelf.new) }
{
    let path = spec_path(alloc, key, origin)?;
    match find(alloc, shelf, &path, LONGEST_ROCKSPEC)? {
        Found::Nowhere => Err(Unserved::Refused(absent(alloc, key, origin)?)),
        Found::TooLong => Err(Unserved::Refused(too_large(alloc, key)?)),
        Found::At(server, bytes) => serve(alloc, key, server, bytes),
    }
}

// The rockspec that a server's bytes are, if they are that of the rock.
fn serve(alloc: Global, key: &RockKey, server: u32, bytes: Bytes) -> Result<Served, Unserved>
    requires { length bytes ≤ LONGEST_ROCKSPEC }
    ensures served { IfOk result (λ served. (served.server ≡ server) × (served.bytes ≡ bytes)
        × IsChecked key.now bytes (Ok served.spec)) }
    ensures unserved { IfErr result (HasNoSpec key.now bytes) }
{
    let spec = checked(alloc, key, bytes.as_slice())?;
    Ok(Served {
        server,
        bytes,
        spec,
    })
}

fn spec_path(alloc: Global, key: &RockKey, origin: Origin) -> Result<FilePath, AllocError>
    ensures { IfOk result (λ path. path ≡ spec_path origin key.now) }
{
    match origin {
        Origin::Unpacked => unpacked_rockspec(alloc, key),
        Origin::Sources => rockspec_path(alloc, key),
    }
}

fn absent(alloc: Global, key: &RockKey, origin: Origin) -> Result<Refusal, AllocError>
    ensures { IfOk result (λ refusal. refusal ≡ absent origin key.now) }
{
    let key = key.copy(alloc)?;
    match origin {
        Origin::Unpacked => Ok(Refusal::NoRock { key }),
        Origin::Sources => Ok(Refusal::NoRockspec { key }),
    }
}

fn too_large(alloc: Global, key: &RockKey) -> Result<Refusal, AllocError>
    ensures { IfOk result (λ refusal. refusal ≡ Refusal.Spec key.now spec_too_large) }
{
    let fault = SpecFault::TooLarge {
        length: u64::from(LONGEST_ROCKSPEC) + 1,
    };
    Ok(Refusal::Spec {
        key: key.copy(alloc)?,
        fault,
    })
}

// The rockspec that bytes are, if they are that of the rock.
fn checked(alloc: Global, key: &RockKey, bytes: &[u8]) -> Result<Rockspec, Unserved>
    requires { length bytes.now ≤ LONGEST_ROCKSPEC }
    ensures ok { IfOk result (λ spec. IsChecked key.now bytes.now (Ok spec)) }
    ensures err { IfErr result (HasNoSpec key.now bytes.now) }
{
    match Rockspec::read(alloc, bytes) {
        Ok(spec) => matching(alloc, key, spec),
        Err(SpecFault::NoMemory) => Err(Unserved::Failed(ShelfError::NoMemory)),
        Err(fault) => Err(Unserved::Refused(Refusal::Spec {
            key: key.copy(alloc)?,
            fault,
        })),
    }
}

fn matching(alloc: Global, key: &RockKey, spec: Rockspec) -> Result<Rockspec, Unserved>
    ensures { MatchResult result (λ kept. matching key.now (Ok spec) ≡ Ok kept)
        (IsMismatch key.now spec) }
{
    if is_of_rock(key, &spec) {
        return Ok(spec);
    }
    Err(Unserved::Refused(Refusal::NotTheRock {
        key: key.copy(alloc)?,
    }))
}

fn is_of_rock(key: &RockKey, spec: &Rockspec) -> bool
    ensures { result ≡ is_of_rock key.now spec.now }
{
    key.name.as_str() == spec.key.name.as_str() && key.version.as_str() == spec.key.version.as_str()
}
