ghost use Rattle.std.specs.Prelude.{◌≡◌, IfOk};

use rocks_bytes::Bytes;
use std::alloc::{AllocError, Global};

/// A key of a table. Integers come before texts, and texts before truth values (this project's own).
#[derive(Debug, Drop, PartialEq, Eq, PartialOrd, Ord)]
pub enum Key {
    /// At most 9,223,372,036,854,775,807.
    Int(u64),
    /// Any bytes.
    Text(Bytes),
    Bool(bool),
}

impl Key {
    /// An equal key. The only error is want of memory.
    pub fn copy(&self, alloc: Global) -> Result<Key, AllocError>
        ensures { IfOk result (λ copied. copied ≡ self.now) }
    {
        match self {
            Key::Int(number) => Ok(Key::Int(*number)),
            Key::Text(bytes) => Ok(Key::Text(bytes.copy(alloc)?)),
            Key::Bool(truth) => Ok(Key::Bool(*truth)),
        }
    }
}
