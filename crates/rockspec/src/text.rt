//! How the faults of rockspecs are told.
ghost use Rattle.std.specs.Prelude.{◌≡◌, ◌++◌, IfOk, codes, string_bytes};
ghost use Rattle.build_plan.specs.Texts.{named_text};
ghost use Rattle.lua_text.specs.Texts.{fault_text, numbered};
ghost use Rattle.rockspec.specs.Texts.{dependency_text, of_row, shape_text, spec_fault_text};

use crate::SpecFault;
use lua_print::print_escapes;
use lua_text::EvalFailed;
use rocks_bytes::Bytes;
use rocks_constraint::DependencyFault;
use rockspec_table::row_path;
use schema_table::ShapeFault;
use std::alloc::{AllocError, Global};

impl SpecFault {
    /// The fault as replies tell it: its name and its values, with a blank before each; of an inner fault of the
    /// text, its tokens, its chunk or its shape that one alone (this project's own). The only error is want of
    /// memory.
    pub fn text(&self, alloc: Global) -> Result<Bytes, AllocError>
        ensures { IfOk result (λ text. text ≡ spec_fault_text self.now) }
    {
        match self {
            SpecFault::TooLarge { length } => numbered(alloc, "TooLarge", *length),
            SpecFault::Lex(fault) => of_text(alloc, EvalFailed::Lex(*fault)),
            SpecFault::Syntax(fault) => of_text(alloc, EvalFailed::Syntax(*fault)),
            SpecFault::Eval(fault) => of_text(alloc, EvalFailed::Eval(*fault)),
            SpecFault::BadFormat => plain(alloc, "BadFormat"),
            SpecFault::BadPlatforms { field } => {
                named_text(alloc, "BadPlatforms", field.as_slice())
            }
            SpecFault::Shape(fault) => shape_text(alloc, fault),
            SpecFault::BadName => plain(alloc, "BadName"),
            SpecFault::BadVersion => plain(alloc, "BadVersion"),
            SpecFault::BadDependency { which, fault } => bad_dependency(alloc, *which, *fault),
            SpecFault::Platform => plain(alloc, "Platform"),
            SpecFault::NoMemory => plain(alloc, "NoMemory"),
        }
    }
}

fn plain(alloc: Global, name: &str) -> Result<Bytes, AllocError>
    ensures { IfOk result (λ text. text ≡ name.now) }
{
    Ok(Bytes::from(name.as_bytes().to_vec(alloc)?))
}

fn numbered(alloc: Global, name: &str, number: u64) -> Result<Bytes, AllocError>
    ensures { IfOk result (λ text. text ≡ numbered name.now number) }
{
    Ok(Bytes::from(format!(in alloc; "{name} {number}")?.into_bytes()))
}

fn named_text(alloc: Global, name: &str, value: &[u8]) -> Result<Bytes, AllocError>
    ensures { IfOk result (λ text. text ≡ named_text name.now value.now) }
{
    let mut text = name.as_bytes().to_vec(alloc)?;
    text.push(b' ')?;
    print_escapes(value, &mut text)?;
    Ok(Bytes::from(text))
}

fn of_text(alloc: Global, fault: EvalFailed) -> Result<Bytes, AllocError>
    ensures { IfOk result (λ text. text ≡ fault_text fault) }
{
    Ok(Bytes::from(fault.text(alloc)?.into_bytes()))
}

fn shape_text(alloc: Global, fault: &ShapeFault) -> Result<Bytes, AllocError>
    ensures { IfOk result (λ text. text ≡ shape_text fault.now) }
{
    match fault {
        ShapeFault::Unknown { path } => named_text(alloc, "Unknown", path.as_slice()),
        ShapeFault::TooNew { row } => of_row(alloc, "TooNew", *row),
        ShapeFault::WrongShape { row } => of_row(alloc, "WrongShape", *row),
        ShapeFault::Missing { row } => of_row(alloc, "Missing", *row),
        ShapeFault::NoMemory => plain(alloc, "NoMemory"),
    }
}

fn of_row(alloc: Global, name: &str, row: u32) -> Result<Bytes, AllocError>
    ensures { IfOk result (λ text. text ≡ of_row name.now row) }
{
    let path = row_path(alloc, row)?;
    let mut text = name.as_bytes().to_vec(alloc)?;
    text.push(b' ')?;
    text.extend_from_slice(path.as_slice())?;
    Ok(Bytes::from(text))
}

fn bad_dependency(alloc: Global, which: u32, fault: DependencyFault) -> Result<Bytes, AllocError>
    ensures { IfOk result (λ text. text
        ≡ numbered (codes "BadDependency") which ++ (codes " " ++ dependency_text fault)) }
{
    let fault = dependency_text(alloc, fault)?;
    Ok(Bytes::from(format!(in alloc; "BadDependency {which} {fault}")?.into_bytes()))
}

fn dependency_text(alloc: Global, fault: DependencyFault) -> Result<String, AllocError>
    ensures { IfOk result (λ text. string_bytes text ≡ dependency_text fault) }
{
    match fault {
        DependencyFault::BadOperator { place } => format!(in alloc; "BadOperator {place}"),
        DependencyFault::BadDependency { place } => format!(in alloc; "BadDependency {place}"),
        DependencyFault::NoMemory => format!(in alloc; "NoMemory"),
    }
}
