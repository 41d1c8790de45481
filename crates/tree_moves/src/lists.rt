ghost use Rattle.std.specs.Prelude.{◌≡◌, IfOk};

use rocks_bytes::Bytes;
use rocks_text::TreePath;
use sqlite_items::Items;
use std::alloc::{AllocError, Global};

/// A new file, and where it waits until it is moved to its place: `new/0`, `new/1` and so on in the work folder (this
/// project's own).
#[derive(Debug, Drop)]
pub struct Staged {
    pub at: TreePath,
    pub bytes: Bytes,
}

/// A file that is to go from one path to another.
#[derive(Debug, Drop)]
pub struct Move {
    pub from: TreePath,
    pub to: TreePath,
}

/// How a tree changes: new files, then what goes out of the way, then what goes to its place (this project's own).
#[derive(Debug, Drop)]
pub struct MoveLists {
    pub staged: Items<Staged>,
    /// In byte order of where they come from.
    pub aside: Items<Move>,
    /// In byte order of where they go.
    pub place: Items<Move>,
}

impl Staged {
    /// An equal file. The only error is want of memory.
    pub fn copy(&self, alloc: Global) -> Result<Staged, AllocError>
        ensures { IfOk result (λ copied. copied ≡ self.now) }
    {
        Ok(Staged {
            at: self.at.copy(alloc)?,
            bytes: self.bytes.copy(alloc)?,
        })
    }
}

impl Move {
    /// An equal move. The only error is want of memory.
    pub fn copy(&self, alloc: Global) -> Result<Move, AllocError>
        ensures { IfOk result (λ copied. copied ≡ self.now) }
    {
        Ok(Move {
            from: self.from.copy(alloc)?,
            to: self.to.copy(alloc)?,
        })
    }
}

impl MoveLists {
    /// Equal lists. The only error is want of memory.
    pub fn copy(&self, alloc: Global) -> Result<MoveLists, AllocError>
        ensures { IfOk result (λ copied. copied ≡ self.now) }
    {
        Ok(MoveLists {
            staged: copied_staged(alloc, self.staged.as_slice())?,
            aside: copied_moves(alloc, self.aside.as_slice())?,
            place: copied_moves(alloc, self.place.as_slice())?,
        })
    }
}

fn copied_staged(alloc: Global, staged: &[Staged]) -> Result<Items<Staged>, AllocError>
    ensures { IfOk result (λ copied. copied ≡ staged.now) }
{
    let mut copied = Items::new(alloc);
    for file in staged {
        copied.push(file.copy(alloc)?)?;
    }
    Ok(copied)
}

fn copied_moves(alloc: Global, moves: &[Move]) -> Result<Items<Move>, AllocError>
    ensures { IfOk result (λ copied. copied ≡ moves.now) }
{
    let mut copied = Items::new(alloc);
    for one in moves {
        copied.push(one.copy(alloc)?)?;
    }
    Ok(copied)
}
