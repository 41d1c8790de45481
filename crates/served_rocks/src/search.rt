ghost use Rattle.std.specs.Prelude.{IfOk, IfSome};
ghost use Rattle.served_rocks.specs.Search.{IsFoundIn, IsFoundWithin};
ghost use Rattle.served_rocks.specs.Asking.{Asks};

use rocks_bytes::Bytes;
use rocks_outside::{Shelf, ShelfError, ShelfRead};
use rocks_text::FilePath;
use std::alloc::Global;

/// Where a file was found.
#[derive(Debug, Drop)]
pub enum Found {
    /// No server has it.
    Nowhere,
    /// It is longer than the limit.
    TooLong,
    /// The server, and the bytes of the file.
    At(u32, Bytes),
}

/// The file at a path of the earliest server that has it, up to `limit` bytes. `Failed` comes only where the shelf
/// failed in the call, and `NoMemory` where memory runs out.
pub fn find<F: Shelf>(
    alloc: Global,
    shelf: &mut F,
    path: &FilePath,
    limit: u32,
) -> Result<Found, ShelfError>
    ensures found { IfOk result (λ found. IfSome (F.state shelf.old).holds
        (λ servers. IsFoundIn limit servers path.now found)) }
    ensures within { IfOk result (IsFoundWithin limit (F.state shelf.old).servers) }
    ensures asks { Asks result (F.state shelf.old) (F.state shelf.new) }
{
    let servers = shelf.servers();
    for server in 0..servers {
        match shelf.read(alloc, server, path, limit)? {
            ShelfRead::Absent => {}
            ShelfRead::TooLong => return Ok(Found::TooLong),
            ShelfRead::Bytes(bytes) => return Ok(Found::At(server, bytes)),
        }
    }
    Ok(Found::Nowhere)
}
