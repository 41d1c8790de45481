ghost use Rattle.std.specs.Prelude.{◌≡◌};
ghost use Rattle.rockspec_table.specs.declared.fault.TableFault.TheVariants.{NoMemory};

use rocks_bytes::Bytes;
use schema_table::ShapeFault;
use std::alloc::AllocError;

/// Why globals are not the fields of a rockspec. The inner fault is never want of memory.
#[derive(Debug, Drop, PartialEq, Eq)]
pub enum TableFault {
    /// `rockspec_format` is there and none of `1.0`, `1.1` and `3.0`.
    BadFormat,
    /// The field has an entry `platforms` that is no table, or one whose `unix` or `linux` is none.
    BadPlatforms { field: Bytes },
    /// The fields don't fit the rows of their format.
    Shape(ShapeFault),
    /// Memory ran out.
    NoMemory,
}

impl From<AllocError> for TableFault {
    ghost from_gives = { λ _ fault. fault ≡ NoMemory };

    fn from(_: AllocError) -> TableFault {
        TableFault::NoMemory
    }
}
