ghost use Rattle.std.specs.Prelude.{◌≡◌};
ghost use Rattle.lua_eval.specs.declared.fault.EvalFault.TheVariants.{NoMemory};

use std::alloc::{AllocError, AllocFailed};

/// What kind of value something is (Lua 5.4 manual, section 2.1, as far as served).
#[derive(Clone, Copy, Debug, PartialEq, Eq)]
pub enum ValueKind {
    Nil,
    Bool,
    Int,
    Text,
    Table,
}

/// Why a chunk has no globals. The places are offsets in the text. That an index of a text, a key and a name given
/// twice, and values that weigh too much are faults, is this project's own; the others are after the Lua 5.4 manual,
/// sections 3.3.3 and 3.4.
#[derive(Clone, Copy, Debug, PartialEq, Eq)]
pub enum EvalFault {
    /// A `..` joins texts and integers alone. The place is the operator's, and the kind that of the left side, where
    /// that can't be joined, or else of the right one.
    ConcatOf { place: u32, kind: ValueKind },
    /// Tables alone are indexed. The place is that of the suffix, and the kind that of the value.
    IndexOf { place: u32, kind: ValueKind },
    /// The key of the field at the place is Nil.
    NilKey { place: u32 },
    /// The key of the field at the place is a table.
    TableKey { place: u32 },
    /// A field before the one at the place gave an equal key.
    TwiceKey { place: u32 },
    /// The name at the place stands twice among the names of one assignment.
    TwiceName { place: u32 },
    /// With the value of the expression at the place all values weigh more than 268,435,456, or more than 100 tables
    /// stand within one another in it.
    TooLarge { place: u32 },
    /// Memory ran out.
    NoMemory,
}

impl From<AllocError> for EvalFault {
    ghost from_gives = { λ _ fault. fault ≡ NoMemory };

    fn from(_error: AllocError) -> EvalFault {
        EvalFault::NoMemory
    }
}

impl<T: Drop> From<AllocFailed<T>> for EvalFault {
    ghost from_gives = { λ _ fault. fault ≡ NoMemory };

    fn from(_error: AllocFailed<T>) -> EvalFault {
        EvalFault::NoMemory
    }
}
