ghost use Rattle.std.specs.Prelude.{◌≡◌, ◌⊎◌, IfOk, IfErr};
ghost use Rattle.lua_value.specs.Ordered.{IsOrdered};
ghost use Rattle.rockspec.specs.Specs.{IsFirstSpecFault, IsSpec, Says};
ghost use Rattle.rockspec.specs.Reading.{fault_of_text, HasNoFieldFault, IsFirstOfFields};

use crate::SpecFault;
use crate::dependencies::dependencies;
use crate::identity::{name, version};
use crate::supported::is_supported;
use build_plan::{BuildPlan, build_plan};
use lua_text::{EvalFailed, globals};
use lua_value::Table;
use rocks_constraint::Dependency;
use rocks_version::RockKey;
use rockspec_table::{Fields, read_fields};
use schema_table::Format;
use sqlite_items::Items;
use std::alloc::Global;

/// The longest rockspec, in bytes.
pub const LONGEST_ROCKSPEC: u32 = 262_144;

/// What a rockspec says (LuaRocks documentation, rockspec format).
#[derive(Debug, Drop)]
pub struct Rockspec {
    pub format: Format,
    /// The package in lower case, and the version.
    pub key: RockKey,
    /// What the rock needs, in the order of the text. What builds and tests need is read and has no effect.
    pub dependencies: Items<Dependency>,
    pub plan: BuildPlan,
}

impl Rockspec {
    /// The rockspec that bytes are. The error is the first of their faults, in the order of `SpecFault`, or
    /// `NoMemory`, which may come instead of any answer.
    pub fn read(alloc: Global, bytes: &[u8]) -> Result<Rockspec, SpecFault>
        ensures spec { IfOk result (IsSpec bytes.now) }
        ensures fault { IfErr result (λ fault.
            (fault ≡ SpecFault.NoMemory) ⊎ IsFirstSpecFault bytes.now fault) }
    {
        if bytes.len() > LONGEST_ROCKSPEC as usize {
            return Err(SpecFault::TooLarge {
                length: bytes.len() as u64,
            });
        }
        match globals(alloc, bytes)? {
            Ok(globals) => from_fields(alloc, read_fields(alloc, &globals)?),
            Err(fault) => Err(fault_of_text(fault)),
        }
    }
}

fn fault_of_text(fault: EvalFailed) -> SpecFault
    ensures { result ≡ fault_of_text fault }
{
    match fault {
        EvalFailed::Lex(fault) => SpecFault::Lex(fault),
        EvalFailed::Syntax(fault) => SpecFault::Syntax(fault),
        EvalFailed::Eval(fault) => SpecFault::Eval(fault),
    }
}

// What the fields say, or the first of their faults.
fn from_fields(alloc: Global, found: Fields) -> Result<Rockspec, SpecFault>
    requires { IsOrdered found.table }
    ensures says { IfOk result (Says found.format found.table) }
    ensures faultless { IfOk result (λ _. HasNoFieldFault found.table) }
    ensures fault { IfErr result (λ fault. (fault ≡ SpecFault.NoMemory)
        ⊎ IsFirstOfFields found.table fault) }
{
    let fields = &found.table;
    let name = name(alloc, fields)?;
    let version = version(alloc, fields)?;
    let dependencies = dependencies(alloc, fields)?;
    if !is_supported(alloc, fields)? {
        return Err(SpecFault::Platform);
    }
    let key = RockKey { name, version };
    let plan = build_plan(alloc, &key, fields)?;
    Ok(Rockspec {
        format: found.format,
        key,
        dependencies,
        plan,
    })
}
