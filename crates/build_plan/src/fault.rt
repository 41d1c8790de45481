ghost use Rattle.std.specs.Prelude.{◌≡◌, IfOk};
ghost use Rattle.build_plan.specs.Texts.{named_text, plan_fault_text};

use crate::fields::copied;
use lua_print::print_escapes;
use rocks_bytes::Bytes;
use std::alloc::{AllocError, Global};

/// Why a rockspec has no build plan. Of several faults it is the first in this order.
#[derive(Debug, Drop, PartialEq, Eq)]
pub enum PlanFault {
    /// The type of the build is neither `builtin` nor `none`.
    BuildType(Bytes),
    /// A `builtin` build doesn't say `modules`.
    NoModules,
    /// There are external dependencies.
    External,
    /// There are patches.
    Patches,
    /// The least module of a `builtin` build whose value is no text that ends in `.lua`.
    NeedsCompiler(Bytes),
    /// The first key or path that has no meaning: of `modules`, `install.lua`, `install.lib`, `install.bin`,
    /// `install.conf` and `copy_directories` in this order, and in each in the order of its keys.
    BadTarget(Bytes),
    /// The least path that is a target of two entries for one kind, that lies below another target of its kind, or
    /// that is a named folder equal to or inside another one.
    TwoForOne(Bytes),
}

impl PlanFault {
    /// The fault as replies tell it: its name, and a blank and its text if it has one, with the escapes of a printed
    /// text and no quotes (this project's own). The only error is want of memory.
    pub fn text(&self, alloc: Global) -> Result<Bytes, AllocError>
        ensures { IfOk result (λ text. text ≡ plan_fault_text self.now) }
    {
        match self {
            PlanFault::BuildType(told) => named_text(alloc, "BuildType", told),
            PlanFault::NoModules => copied(alloc, b"NoModules"),
            PlanFault::External => copied(alloc, b"External"),
            PlanFault::Patches => copied(alloc, b"Patches"),
            PlanFault::NeedsCompiler(name) => named_text(alloc, "NeedsCompiler", name),
            PlanFault::BadTarget(text) => named_text(alloc, "BadTarget", text),
            PlanFault::TwoForOne(path) => named_text(alloc, "TwoForOne", path),
        }
    }
}

fn named_text(alloc: Global, name: &str, text: &Bytes) -> Result<Bytes, AllocError>
    ensures { IfOk result (λ whole. whole ≡ named_text name.now text.now) }
{
    let mut whole = Vec::from_slice(alloc, name.as_bytes())?;
    whole.push(b' ')?;
    print_escapes(text.as_slice(), &mut whole)?;
    Ok(Bytes::from(whole))
}
