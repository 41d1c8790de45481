ghost use Rattle.std.specs.Prelude.{◌≡◌};
ghost use Rattle.rockspec.specs.declared.fault.SpecFault.TheVariants.{NoMemory};
ghost use Rattle.rockspec.specs.Reading.{fault_of_table};

use lua_eval::EvalFault;
use lua_lexer::LexFault;
use lua_syntax::SyntaxFault;
use rocks_bytes::Bytes;
use rocks_constraint::DependencyFault;
use rockspec_table::TableFault;
use schema_table::ShapeFault;
use std::alloc::AllocError;

/// Why bytes are no rockspec. Of several faults it is the first in this order (this project's own). No inner fault is
/// want of memory.
#[derive(Debug, Drop, PartialEq, Eq)]
pub enum SpecFault {
    /// There are more than 262,144 bytes.
    TooLarge { length: u64 },
    /// The text has no tokens.
    Lex(LexFault),
    /// Its tokens are no chunk.
    Syntax(SyntaxFault),
    /// Its chunk has no globals.
    Eval(EvalFault),
    /// `rockspec_format` is there and none of `1.0`, `1.1` and `3.0`.
    BadFormat,
    /// The first field with an entry `platforms` that is no table, or one whose `unix` or `linux` is none.
    BadPlatforms { field: Bytes },
    /// The fields don't fit their format.
    Shape(ShapeFault),
    /// `package` in lower case is no name.
    BadName,
    /// `version` is no version that a rock may have.
    BadVersion,
    /// The first text of `dependencies`, `build_dependencies` and `test_dependencies` in turn that is no dependency.
    /// They are counted from 0, and up to 4,294,967,295.
    BadDependency { which: u32, fault: DependencyFault },
    /// `supported_platforms` doesn't allow for `unix` and `linux`.
    Platform,
    /// Memory ran out.
    NoMemory,
}

impl From<AllocError> for SpecFault {
    ghost from_gives = { λ _ fault. fault ≡ NoMemory };

    fn from(_: AllocError) -> SpecFault {
        SpecFault::NoMemory
    }
}

impl From<TableFault> for SpecFault {
    ghost from_gives = { λ table fault. fault ≡ fault_of_table table };

    fn from(fault: TableFault) -> SpecFault {
        match fault {
            TableFault::BadFormat => SpecFault::BadFormat,
            TableFault::BadPlatforms { field } => SpecFault::BadPlatforms { field },
            TableFault::Shape(fault) => SpecFault::Shape(fault),
            TableFault::NoMemory => SpecFault::NoMemory,
        }
    }
}
