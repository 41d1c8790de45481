//! The name and the version of a rock.
ghost use Rattle.std.specs.Prelude.{◌≡◌, ◌⊎◌, false, IfOk, IfErr, IsTrue, MatchOption};
ghost use Rattle.lua_value.specs.Ordered.{IsOrdered};
ghost use Rattle.rocks_text.specs.Texts.{is_name};
ghost use Rattle.rocks_version.specs.Texts.{is_rock_version};
ghost use Rattle.rockspec.specs.Fields.{rock_name, rock_version};

use crate::SpecFault;
use crate::fields::text_at;
use lua_value::Table;
use rocks_text::{Name, TextFault};
use rocks_version::{Version, VersionFault};
use std::alloc::{AllocError, Global};
use std::str;

/// The package in lower case. `BadName` exactly where that is no name, unless memory runs out.
pub fn name(alloc: Global, fields: &Table) -> Result<Name, SpecFault>
    requires { IsOrdered fields.now }
    ensures value { IfOk result (λ name. name ≡ rock_name fields.now) }
    ensures good { IfOk result (λ _. IsTrue (is_name (rock_name fields.now))) }
    ensures fault { IfErr result (λ fault. (fault ≡ SpecFault.NoMemory)
        ⊎ ((fault ≡ SpecFault.BadName) × (is_name (rock_name fields.now) ≡ false))) }
{
    let package = text_at(alloc, fields, "package")?;
    let Ok(package) = str::from_utf8(package) else {
        return Err(SpecFault::BadName);
    };
    match Name::from_text(alloc, package) {
        Ok(name) => Ok(name),
        Err(TextFault::NoMemory) => Err(SpecFault::NoMemory),
        Err(_) => Err(SpecFault::BadName),
    }
}

/// The version. `BadVersion` exactly where a rock can't have it, unless memory runs out.
pub fn version(alloc: Global, fields: &Table) -> Result<Version, SpecFault>
    requires { IsOrdered fields.now }
    ensures value { IfOk result (λ version. version ≡ rock_version fields.now) }
    ensures good { IfOk result (λ _. IsTrue (is_rock_version (rock_version fields.now))) }
    ensures fault { IfErr result (λ fault. (fault ≡ SpecFault.NoMemory)
        ⊎ ((fault ≡ SpecFault.BadVersion) × (is_rock_version (rock_version fields.now) ≡ false))) }
{
    let text = text_at(alloc, fields, "version")?;
    let Ok(text) = str::from_utf8(text) else {
        return Err(SpecFault::BadVersion);
    };
    match some_version(alloc, text)? {
        Some(version) if version.is_rock_version() => Ok(version),
        _ => Err(SpecFault::BadVersion),
    }
}

// The version that a text is, if it is one.
#[tactic(auto, using(crate::proofs::Texts::no_rock_version))]
fn some_version(alloc: Global, text: &str) -> Result<Option<Version>, AllocError>
    ensures { IfOk result (λ read. MatchOption read (is_rock_version text.now ≡ false)
        (λ version. version ≡ text.now)) }
{
    match Version::read(alloc, text) {
        Ok(version) => Ok(Some(version)),
        Err(VersionFault::NoMemory) => Err(AllocError),
        Err(_) => Ok(None),
    }
}
