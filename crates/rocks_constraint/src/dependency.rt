ghost use Rattle.std.specs.Prelude.{◌≡◌, ◌≤◌, ◌⊎◌, ℕ, List, None, length, string_bytes};
ghost use Rattle.std.specs.Prelude.{IfErr, IfOk, IfSome};
ghost use Rattle.rocks_constraint.specs.Faults.{fault_at, limited, place_of, HasFault};
ghost use Rattle.rocks_constraint.specs.Grammar.{IsDependency, IsRead};
ghost use Rattle.rocks_constraint.specs.Printed.{printed};
ghost use Rattle.rocks_constraint.specs.declared.constraint.Constraint.{Constraint as Condition};

use crate::constraint::{LONGEST, MOST_CONSTRAINTS};
use crate::printed::push_constraints;
use crate::reader::{Wrong, read_text};
use crate::{Constraint, DependencyFault};
use rocks_text::Name;
use sqlite_items::Items;
use std::alloc::{AllocError, Global};
use std::marker::Model;

/// What a rock needs: a package, and at most 32 constraints on its version (LuaRocks).
#[derive(Debug, Drop)]
pub struct Dependency {
    name: Name,
    constraints: Items<Constraint>,
}

impl Model for Dependency {
    ghost use Rattle.std.specs.Prelude.{◌≤◌, length};
    ghost use Rattle.rocks_constraint.specs.Wanted.{Wanted};
    ghost use Rattle.rocks_constraint.specs.declared.constraint.TheConstants.{MOST_CONSTRAINTS};

    ghost Value = { Wanted };

    ghost view = { λ d. record { name = d.name; constraints = d.constraints } };

    ghost invariant = { λ d. length d.constraints ≤ MOST_CONSTRAINTS };
}

impl Dependency {
    /// The dependency that a text is. A text that is none has one fault, or memory runs out first.
    pub fn read(alloc: Global, text: &str) -> Result<Dependency, DependencyFault>
        ensures read { IfOk result (λ d. IsDependency text.now d.name d.constraints) }
        ensures fault { IfErr result (λ fault.
            (fault ≡ DependencyFault.NoMemory) ⊎ HasFault text.now fault) }
    {
        Dependency::read_bytes(alloc, text.as_bytes())
    }

    /// The same of a text that need not be UTF-8. A byte that fits nowhere is the text's first wrong part.
    pub fn read_bytes(alloc: Global, text: &[u8]) -> Result<Dependency, DependencyFault>
        ensures read { IfOk result (λ d. IsDependency text.now d.name d.constraints) }
        ensures fault { IfErr result (λ fault.
            (fault ≡ DependencyFault.NoMemory) ⊎ HasFault text.now fault) }
    {
        match read_text(alloc, text) {
            Ok((name, constraints)) if text.len() <= LONGEST => Ok(Dependency {
                name,
                constraints,
            }),
            Ok(_) => Err(DependencyFault::BadDependency {
                place: LONGEST as u32,
            }),
            Err(wrong) => Err(limited(text.len(), wrong)),
        }
    }

    /// The dependency that a text of any length spells, or `None` exactly where it spells none. The only error is want of
    /// memory.
    pub fn read_unlimited(alloc: Global, text: &[u8]) -> Result<Option<Dependency>, AllocError>
        ensures read { IfOk result (λ found.
            IfSome found (λ d. IsRead text.now d.name d.constraints)) }
        ensures none { IfOk result (λ found. found ≡ None
            → (name : List ℕ) (constraints : List Condition)
            → ¬ (IsRead text.now name constraints)) }
    {
        match read_text(alloc, text) {
            Ok((name, constraints)) => Ok(Some(Dependency { name, constraints })),
            Err(Wrong::NoMemory) => Err(AllocError),
            Err(Wrong::Operator(_)) => Ok(None),
            Err(Wrong::Other(_)) => Ok(None),
        }
    }

    /// The package that is needed.
    pub fn name(&self) -> &Name
        ensures { result.now ≡ self.now.name }
    {
        &self.name
    }

    /// What its version has to meet.
    pub fn constraints(&self) -> &[Constraint]
        ensures value { result.now ≡ self.now.constraints }
        ensures few { length result.now ≤ MOST_CONSTRAINTS }
    {
        self.constraints.as_slice()
    }

    /// The dependency's text: the name, and each constraint behind a blank, with commas between them. The only error
    /// is want of memory.
    pub fn text(&self, alloc: Global) -> Result<String, AllocError>
        ensures { IfOk result
            (λ text. string_bytes text ≡ printed self.now.name self.now.constraints) }
    {
        let mut text = String::from_str(alloc, self.name.as_str())?;
        push_constraints(&mut text, self.constraints.as_slice())?;
        Ok(text)
    }

    /// An equal dependency. The only error is want of memory.
    pub fn copy(&self, alloc: Global) -> Result<Dependency, AllocError>
        ensures { IfOk result (λ copied. copied ≡ self.now) }
    {
        Ok(Dependency {
            name: self.name.copy(alloc)?,
            constraints: copied(alloc, self.constraints.as_slice())?,
        })
    }
}

fn copied(alloc: Global, constraints: &[Constraint]) -> Result<Items<Constraint>, AllocError>
    ensures { IfOk result (λ copied. copied ≡ constraints.now) }
{
    let mut copied = Items::new(alloc);
    for constraint in constraints {
        copied.push(constraint.copy(alloc)?)?;
    }
    Ok(copied)
}

// The fault of a text of that length whose first wrong part this is, where it isn't want of memory.
fn limited(length: usize, wrong: Wrong) -> DependencyFault
    requires { place_of (fault_at wrong) ≤ length }
    ensures { result ≡ limited length (fault_at wrong) }
{
    match wrong {
        Wrong::Operator(place) if length <= LONGEST || place < LONGEST => {
            DependencyFault::BadOperator {
                place: place as u32,
            }
        }
        Wrong::Other(place) if length <= LONGEST || place < LONGEST => {
            DependencyFault::BadDependency {
                place: place as u32,
            }
        }
        Wrong::NoMemory => DependencyFault::NoMemory,
        _ => DependencyFault::BadDependency {
            place: LONGEST as u32,
        },
    }
}
