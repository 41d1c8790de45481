ghost use Rattle.std.specs.Prelude.{◌≡◌};
ghost use Rattle.schema_table.specs.declared.fault.ShapeFault.TheVariants.{NoMemory};

use rocks_bytes::Bytes;
use std::alloc::AllocError;

/// Why a table doesn't fit rows (this project's own). Rows are counted from 0.
#[derive(Debug, Drop, PartialEq, Eq)]
pub enum ShapeFault {
    /// No row matches the path. It is told as its keys with dots between them: integers in decimal,
    /// texts as their bytes, and truth values as `true` or `false`.
    Unknown { path: Bytes },
    /// The path is there, and its row speaks of later formats only.
    TooNew { row: u32 },
    /// The value at the path doesn't have the shape of its row.
    WrongShape { row: u32 },
    /// The table above the row's path is there, and the path isn't.
    Missing { row: u32 },
    /// Memory ran out.
    NoMemory,
}

impl From<AllocError> for ShapeFault {
    ghost from_gives = { λ _ fault. fault ≡ NoMemory };

    fn from(_: AllocError) -> ShapeFault {
        ShapeFault::NoMemory
    }
}
