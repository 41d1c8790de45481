ghost use Rattle.std.specs.Prelude.{◌≡◌};
ghost use Rattle.lua_syntax.specs.declared.fault.SyntaxFault.TheVariants.{NoMemory};

use std::alloc::{AllocError, AllocFailed};

/// What of Lua isn't served (this project's own).
#[derive(Clone, Copy, Debug, PartialEq, Eq)]
pub enum Unserved {
    /// A statement that begins with `if`, `while`, `for`, `repeat`, `do`, `goto`, `break`, `return` or `::`.
    Control,
    /// A function, as a statement or an expression.
    Function,
    /// A call.
    Call,
    /// `...`
    Vararg,
    /// Any operator but `..`.
    Operator,
    /// An assignment to anything but names.
    FieldAssign,
    /// The attribute of a local name.
    Attribute,
    /// The name `_ENV`.
    Environment,
}

/// Why tokens derive no chunk. The place is that of the first token such that no chunk begins with the tokens up
/// to it, or of the 101st open bracket. Which fault it is, is this project's own; the grammar is after the Lua 5.4
/// manual, section 9.
#[derive(Clone, Copy, Debug, PartialEq, Eq)]
pub enum SyntaxFault {
    /// Another token is expected.
    Expected { place: u32 },
    /// The token may stand there in Lua, and what it begins isn't served.
    NotServed { place: u32, which: Unserved },
    /// The 101st open `(`, `{` or `[`.
    TooDeep { place: u32 },
    /// Memory ran out.
    NoMemory,
}

impl From<AllocError> for SyntaxFault {
    ghost from_gives = { λ _ fault. fault ≡ NoMemory };

    fn from(_error: AllocError) -> SyntaxFault {
        SyntaxFault::NoMemory
    }
}

impl<T: Drop> From<AllocFailed<T>> for SyntaxFault {
    ghost from_gives = { λ _ fault. fault ≡ NoMemory };

    fn from(_error: AllocFailed<T>) -> SyntaxFault {
        SyntaxFault::NoMemory
    }
}
