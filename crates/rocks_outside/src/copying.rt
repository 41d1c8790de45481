ghost use Rattle.std.specs.Prelude.{◌≡◌, IfOk};

use rocks_bytes::Bytes;
use std::alloc::{AllocError, Global};

/// A copy of the bytes, to be held.
pub(crate) fn copied(alloc: Global, bytes: &[u8]) -> Result<Bytes, AllocError>
    ensures { IfOk result (λ copied. copied ≡ bytes.now) }
{
    Ok(Bytes::from(Vec::from_slice(alloc, bytes)?))
}
