ghost use Rattle.std.specs.Prelude.{◌≡◌, ◌++◌, codes, IfOk, Some};
ghost use Rattle.lua_text.specs.Texts.{fault_text};
ghost use Rattle.rocks_constraint.specs.Printed.{printed};
ghost use Rattle.rocks_reply.specs.Texts.{refusal_text, added_text, key_text};
ghost use Rattle.rocks_reply.specs.Texts.{build_failed_text, fault_line};

use build_plan::PlanFault;
use lua_text::EvalFailed;
use rock_files::BuildFault;
use rocks_bytes::Bytes;
use rocks_constraint::Dependency;
use rocks_text::FilePath;
use rocks_version::RockKey;
use rockspec::SpecFault;
use std::alloc::{AllocError, Global};

/// Why a command was refused. A refused command changes no file.
#[derive(Debug, Drop)]
pub enum Refusal {
    /// The package `lua` is provided by Lua itself.
    Provided,
    /// No server has the rockspec of the unpacked rock's folder.
    NoRock { key: RockKey },
    /// No server has the file.
    NoFile { path: FilePath },
    /// The file's text has no globals.
    Lua { fault: EvalFailed },
    /// No server has the rock's rockspec.
    NoRockspec { key: RockKey },
    /// The file is no rockspec.
    Spec { key: RockKey, fault: SpecFault },
    /// The rockspec has another name or version.
    NotTheRock { key: RockKey },
    /// The rock can't be built.
    Build { key: RockKey, fault: BuildFailed },
    /// What the rock needs is neither Lua, the rock itself nor installed.
    Unmet { dependency: Dependency },
}

/// Why a rock can't be built.
#[derive(Debug, Drop)]
pub enum BuildFailed {
    /// Its rockspec has no build plan.
    Plan(PlanFault),
    /// Its files can't be taken.
    Build(BuildFault),
}

impl BuildFailed {
    /// The fault as replies tell it, that of the plan or of the files alone. The only error is want of memory.
    pub fn text(&self, alloc: Global) -> Result<Bytes, AllocError>
        ensures { IfOk result (λ text. text ≡ build_failed_text self.now) }
    {
        match self {
            BuildFailed::Plan(fault) => fault.text(alloc),
            BuildFailed::Build(fault) => fault.text(alloc),
        }
    }
}

/// The answer to one command.
#[derive(Debug, Drop)]
pub struct Reply {
    /// Why the command was refused, if it was.
    pub refusal: Option<Refusal>,
    /// The lines that are said.
    pub text: Bytes,
}

/// The lines of the reply to a command that added a rock: `+ NAME VERSION` and `ok` (this project's own). The only error
/// is want of memory.
pub fn added_text(alloc: Global, key: &RockKey) -> Result<Bytes, AllocError>
    ensures { IfOk result (λ text. text ≡ added_text key.now) }
{
    let name = key.name.as_str();
    let version = key.version.as_str();
    Ok(Bytes::from(format!(in alloc; "+ {name} {version}\nok\n")?.into_bytes()))
}

/// The answer of a refused command: one line, `refused`, a code and its values (this project's own). The only error is
/// want of memory.
pub fn refused(alloc: Global, refusal: Refusal) -> Result<Reply, AllocError>
    ensures refusal { IfOk result (λ reply. reply.refusal ≡ Some refusal) }
    ensures text { IfOk result (λ reply. reply.text ≡ refusal_text refusal) }
{
    let text = refusal_text(alloc, &refusal)?;
    Ok(Reply {
        refusal: Some(refusal),
        text,
    })
}

// The reply of a refused command.
fn refusal_text(alloc: Global, refusal: &Refusal) -> Result<Bytes, AllocError>
    ensures { IfOk result (λ text. text ≡ refusal_text refusal.now) }
{
    match refusal {
        Refusal::Provided => Ok(Bytes::from(b"refused Provided\n".to_vec(alloc)?)),
        Refusal::NoRock { key } => refused_key(alloc, "NoRock", key),
        Refusal::NoFile { path } => refused_path(alloc, path),
        Refusal::Lua { fault } => refused_text(alloc, fault),
        Refusal::NoRockspec { key } => refused_key(alloc, "NoRockspec", key),
        Refusal::Spec { key, fault } => refused_fault(alloc, "Spec", key, &fault.text(alloc)?),
        Refusal::NotTheRock { key } => refused_key(alloc, "NotTheRock", key),
        Refusal::Build { key, fault } => refused_fault(alloc, "Build", key, &fault.text(alloc)?),
        Refusal::Unmet { dependency } => refused_unmet(alloc, dependency),
    }
}

fn refused_key(alloc: Global, code: &str, key: &RockKey) -> Result<Bytes, AllocError>
    ensures { IfOk result (λ text. text
        ≡ codes "refused " ++ code.now ++ codes " " ++ key_text key.now ++ codes "\n") }
{
    let name = key.name.as_str();
    let version = key.version.as_str();
    Ok(Bytes::from(format!(in alloc; "refused {code} {name} {version}\n")?.into_bytes()))
}

fn refused_fault(
    alloc: Global,
    code: &str,
    key: &RockKey,
    fault: &Bytes,
) -> Result<Bytes, AllocError>
    ensures { IfOk result (λ text. text ≡ fault_line code.now key.now fault.now) }
{
    let name = key.name.as_str();
    let version = key.version.as_str();
    let mut text = format!(in alloc; "refused {code} {name} {version} ")?.into_bytes();
    text.extend_from_slice(fault.as_slice())?;
    text.extend_from_slice(b"\n")?;
    Ok(Bytes::from(text))
}

fn refused_path(alloc: Global, path: &FilePath) -> Result<Bytes, AllocError>
    ensures { IfOk result (λ text. text ≡ codes "refused NoFile " ++ path.now ++ codes "\n") }
{
    let path = path.as_str();
    Ok(Bytes::from(format!(in alloc; "refused NoFile {path}\n")?.into_bytes()))
}

fn refused_text(alloc: Global, fault: &EvalFailed) -> Result<Bytes, AllocError>
    ensures { IfOk result (λ text. text
        ≡ codes "refused Lua " ++ fault_text fault.now ++ codes "\n") }
{
    let fault = fault.text(alloc)?;
    Ok(Bytes::from(format!(in alloc; "refused Lua {fault}\n")?.into_bytes()))
}

fn refused_unmet(alloc: Global, dependency: &Dependency) -> Result<Bytes, AllocError>
    ensures { IfOk result (λ text. text
        ≡ codes "refused Unmet "
        ++ printed dependency.now.name dependency.now.constraints ++ codes "\n") }
{
    let dependency = dependency.text(alloc)?;
    Ok(Bytes::from(format!(in alloc; "refused Unmet {dependency}\n")?.into_bytes()))
}
