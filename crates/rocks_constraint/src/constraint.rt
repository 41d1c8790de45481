ghost use Rattle.std.specs.Prelude.{◌≡◌, IfOk};

use rocks_version::Version;
use std::alloc::{AllocError, Global};

/// The longest text of a dependency, in bytes.
pub const LONGEST: usize = 1000;

/// The most constraints of a dependency.
pub const MOST_CONSTRAINTS: usize = 32;

/// What a constraint wants of a version, given one (LuaRocks).
#[derive(Clone, Copy, Debug, PartialEq, Eq)]
pub enum Operator {
    /// `==`, `=` or none: the components are as many and equal, and so are the revisions where both have one.
    Eq,
    /// `~=` or `!=`: not `==`.
    Ne,
    /// `<`: below it as versions are compared.
    Lt,
    /// `>`: above it.
    Gt,
    /// `<=`: not above it.
    Le,
    /// `>=`: not below it.
    Ge,
    /// `~>`: the components, followed by zeros, begin with those given, and the revision is the one given, if one is.
    Near,
}

/// A condition on a version (LuaRocks).
#[derive(Debug, PartialEq, Eq, Drop)]
pub struct Constraint {
    pub operator: Operator,
    pub version: Version,
}

impl Constraint {
    /// An equal constraint. The only error is want of memory.
    pub fn copy(&self, alloc: Global) -> Result<Constraint, AllocError>
        ensures { IfOk result (λ copied. copied ≡ self.now) }
    {
        Ok(Constraint {
            operator: self.operator,
            version: self.version.copy(alloc)?,
        })
    }
}
