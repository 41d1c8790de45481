//! The dependencies of a rock.
ghost use Rattle.std.specs.Prelude.{◌≡◌, ◌⊎◌, codes, map, IfOk, IfErr};
ghost use Rattle.lua_value.specs.Ordered.{IsOrdered};
ghost use Rattle.rockspec.specs.Bad.{told_bad, AreGood, IsBadFrom};
ghost use Rattle.rockspec.specs.Fields.{dependency_texts, texts_at, AreRead};

use crate::SpecFault;
use crate::fields::texts_at;
use lua_value::Table;
use rocks_constraint::{Dependency, DependencyFault};
use sqlite_items::Items;
use std::alloc::Global;

/// The dependencies of `dependencies`. Those of `build_dependencies` and `test_dependencies` are read after them.
///
/// `BadDependency` for the first text of the three lists that is none, unless memory runs out.
pub fn dependencies(alloc: Global, fields: &Table) -> Result<Items<Dependency>, SpecFault>
    requires { IsOrdered fields.now }
    ensures read { IfOk result (AreRead (texts_at (codes "dependencies") fields.now)) }
    ensures good { IfOk result (λ _. AreGood (dependency_texts fields.now)) }
    ensures fault { IfErr result (λ fault. (fault ≡ SpecFault.NoMemory)
        ⊎ IsBadFrom (dependency_texts fields.now) 0 fault) }
{
    let own = texts_at(alloc, fields, "dependencies")?;
    let to_build = texts_at(alloc, fields, "build_dependencies")?;
    let to_test = texts_at(alloc, fields, "test_dependencies")?;
    let read = read_all(alloc, &own, 0)?;
    read_all(alloc, &to_build, own.len())?;
    read_all(alloc, &to_test, own.len().saturating_add(to_build.len()))?;
    Ok(read)
}

// The dependencies that texts are, which stand behind so many others.
fn read_all(alloc: Global, texts: &[&[u8]], before: usize) -> Result<Items<Dependency>, SpecFault>
    ensures read { IfOk result (AreRead (map (λ text. text.now) texts.now)) }
    ensures fault { IfErr result (λ fault. (fault ≡ SpecFault.NoMemory)
        ⊎ IsBadFrom (map (λ text. text.now) texts.now) before fault) }
{
    let mut read = Items::new(alloc);
    for text in texts {
        match Dependency::read_bytes(alloc, text) {
            Ok(dependency) => read.push(dependency)?,
            Err(fault) => return Err(bad_dependency(before.saturating_add(read.len()), fault)),
        }
    }
    Ok(read)
}

fn bad_dependency(number: usize, fault: DependencyFault) -> SpecFault
    ensures { result ≡ told_bad number fault }
{
    match fault {
        DependencyFault::NoMemory => SpecFault::NoMemory,
        fault => SpecFault::BadDependency {
            which: u32::try_from(number).unwrap_or(u32::MAX),
            fault,
        },
    }
}
