ghost use Rattle.std.specs.Prelude.{◌≡◌, ◌≢◌, ◌+◌, ◌^◌, ◌<◌, ◌≤◌, ◌⊎◌, length, IfErr, IfOk};
ghost use Rattle.rocks_constraint.specs.Alphabet.{operator_of};
ghost use Rattle.rocks_constraint.specs.Faults.{fault_at, place_of, version_place, HasWrongTail};
ghost use Rattle.rocks_constraint.specs.Faults.{IsNoConstraint, IsWrong};
ghost use Rattle.rocks_constraint.specs.Grammar.{IsConstraintAt, IsRead, IsTail};
ghost use Rattle.rocks_constraint.specs.declared.reader.Wrong.TheVariants.{NoMemory};

use crate::constraint::MOST_CONSTRAINTS;
use crate::cut::{cut_blanks, cut_gap, cut_operator, cut_run, run_text};
use crate::{Constraint, Operator};
use rocks_text::{Name, TextFault};
use rocks_version::{Version, VersionFault};
use sqlite_items::Items;
use std::alloc::{AllocError, Global};

/// The first part of a text that is wrong, by its place.
#[derive(Clone, Copy)]
pub enum Wrong {
    Operator(usize),
    Other(usize),
    NoMemory,
}

impl From<AllocError> for Wrong {
    ghost from_gives = { λ _ wrong. wrong ≡ NoMemory };

    fn from(_: AllocError) -> Wrong {
        Wrong::NoMemory
    }
}

/// The name and the constraints of a text of any length.
pub fn read_text(alloc: Global, text: &[u8]) -> Result<(Name, Items<Constraint>), Wrong>
    ensures read { IfOk result (λ read. IsRead text.now read.0 read.1) }
    ensures few { IfOk result (λ read. length read.1 ≤ MOST_CONSTRAINTS) }
    ensures wrong { IfErr result (λ wrong.
        (wrong ≡ Wrong.NoMemory) ⊎ IsWrong text.now (fault_at wrong)) }
    ensures within { IfErr result (λ wrong. place_of (fault_at wrong) ≤ length text.now) }
{
    let (blanks, from_name) = cut_blanks(text);
    let (run, behind) = cut_run(from_name);
    let name = match Name::from_text(alloc, run_text(run)) {
        Ok(name) => name,
        Err(TextFault::BadName) => return Err(Wrong::Other(blanks.len())),
        Err(_) => return Err(Wrong::NoMemory),
    };
    match read_tail(alloc, blanks.len() + run.len(), behind) {
        Ok(constraints) => Ok((name, constraints)),
        Err(wrong) => Err(wrong),
    }
}

// The constraints that stand behind a name, from that place on.
fn read_tail(alloc: Global, start: usize, whole: &[u8]) -> Result<Items<Constraint>, Wrong>
    requires { start + length whole.now < 2 ^ 64 }
    ensures read { IfOk result (λ constraints. IsTail 0 whole.now constraints) }
    ensures few { IfOk result (λ constraints. length constraints ≤ MOST_CONSTRAINTS) }
    ensures wrong { IfErr result (λ wrong.
        (wrong ≡ Wrong.NoMemory) ⊎ HasWrongTail 0 start whole.now (fault_at wrong)) }
    ensures within { IfErr result
        (λ wrong. place_of (fault_at wrong) ≤ start + length whole.now) }
{
    let mut constraints = Items::new(alloc);
    let mut text = whole;
    let mut place = start;
    loop {
        let (gap, behind) = cut_gap(constraints.len(), text);
        if behind.is_empty() {
            return Ok(constraints);
        }
        let from = place + gap.len();
        if constraints.len() == MOST_CONSTRAINTS {
            return Err(Wrong::Other(from));
        }
        match read_constraint(alloc, from, behind) {
            Ok((constraint, rest)) => {
                constraints.push(constraint)?;
                place = from + (behind.len() - rest.len());
                text = rest;
            }
            Err(wrong) => return Err(wrong),
        }
    }
}

// The constraint at the front of a text that stands at a place, and what follows it.
fn read_constraint(alloc: Global, place: usize, text: &[u8]) -> Result<(Constraint, &[u8]), Wrong>
    requires { place + length text.now < 2 ^ 64 }
    ensures read { IfOk result (λ read. IsConstraintAt text.now read.0 read.1.now) }
    ensures wrong { IfErr result (λ wrong.
        (wrong ≡ Wrong.NoMemory) ⊎ IsNoConstraint place text.now (fault_at wrong)) }
    ensures within { IfErr result (λ wrong. place_of (fault_at wrong) ≤ place + length text.now) }
{
    let (run, behind) = cut_operator(text);
    let Some(operator) = operator_of(run) else {
        return Err(Wrong::Operator(place));
    };
    let (blanks, from_version) = cut_blanks(behind);
    let (version, rest) = cut_run(from_version);
    match Version::read(alloc, run_text(version)) {
        Ok(version) => Ok((Constraint { operator, version }, rest)),
        Err(fault) => Err(version_wrong(place + run.len() + blanks.len(), fault)),
    }
}

// What is wrong with a run at a place that is no version.
fn version_wrong(place: usize, fault: VersionFault) -> Wrong
    requires { place + version_place fault < 2 ^ 64 }
    ensures place { fault ≢ VersionFault.NoMemory
        → result ≡ Wrong.Other (place + version_place fault) }
    ensures memory { fault ≡ VersionFault.NoMemory → result ≡ Wrong.NoMemory }
{
    match fault {
        VersionFault::BadVersion { place: behind } => Wrong::Other(place + behind as usize),
        VersionFault::NumberTooLong { place: behind } => Wrong::Other(place + behind as usize),
        VersionFault::NoMemory => Wrong::NoMemory,
    }
}

#[tactic(auto, unfolding(crate::specs::Alphabet::operator_of))]
fn operator_of(run: &[u8]) -> Option<Operator>
    ensures { result ≡ operator_of run.now }
{
    if run.is_empty() || run == b"=".as_slice() || run == b"==".as_slice() {
        Some(Operator::Eq)
    } else if run == b"~=".as_slice() || run == b"!=".as_slice() {
        Some(Operator::Ne)
    } else if run == b"<".as_slice() {
        Some(Operator::Lt)
    } else if run == b">".as_slice() {
        Some(Operator::Gt)
    } else if run == b"<=".as_slice() {
        Some(Operator::Le)
    } else if run == b">=".as_slice() {
        Some(Operator::Ge)
    } else if run == b"~>".as_slice() {
        Some(Operator::Near)
    } else {
        None
    }
}
