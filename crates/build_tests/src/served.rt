//! Servers from tables.
use rocks_outside::{MemoryShelf, Shelf};
use rocks_text::FilePath;
use std::alloc::Global;
use std::process::Abort;
use std::test::Fail;

/// The files of a server: the path of each, and its bytes.
pub type Files = &'static [(&'static str, &'static str)];

/// A shelf with two servers, of which the first holds nothing and the second these files.
pub fn shelf(rt: &impl Abort, alloc: Global, files: Files) -> Result<MemoryShelf, Fail> {
    let mut shelf = MemoryShelf::new(alloc, 2)?;
    for (path, bytes) in files {
        put(rt, alloc, &mut shelf, path, bytes.as_bytes())?;
    }
    Ok(shelf)
}

/// Puts a file on the second server.
pub fn put(
    rt: &impl Abort,
    alloc: Global,
    shelf: &mut MemoryShelf,
    path: &str,
    bytes: &[u8],
) -> Result<(), Fail> {
    let path = FilePath::from_text(alloc, path)?;
    assert!(rt; shelf.servers() > 1);
    assert!(rt; shelf.put(1, &path, bytes)?);
    Ok(())
}
