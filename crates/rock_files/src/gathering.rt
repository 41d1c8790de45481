ghost use Rattle.std.specs.Prelude.{◌≡◌, ◌++◌, ◌∷◌, ◌<◌, ◌+◌, ◌^◌, [], List, length};
ghost use Rattle.std.specs.Prelude.{Ok, IsTrue, IfOk, IfErr, OnOk};
ghost use Rattle.rocks_outside.specs.Shelf.{IsRead, IsWithin};
ghost use Rattle.rocks_outside.specs.declared.shelf.ShelfRead.TheVariants as shelf_read;
ghost use Rattle.rock_record.specs.declared.limits.TheConstants.{LONGEST_FILE};
ghost use Rattle.rock_parts.specs.declared.parts.Step.{Step};
ghost use Rattle.rock_files.specs.Faults.{Asks};
ghost use Rattle.rock_files.specs.Gathering.{Gathers, IsFaultOf, held_in};
ghost use Rattle.rock_files.specs.Taking.{AreTaken, IsLimitFault, IsOutside, IsWithinLimits};
ghost use Rattle.rock_files.specs.Taking.{OnServer, Sorts, fits_behind, items_with, own_with};

use crate::BuildFault;
use rock_parts::{Part, Source, Step};
use rock_record::{LONGEST_FILE, MOST_BYTES, MOST_FILES};
use rocks_bytes::Bytes;
use rocks_outside::{Shelf, ShelfRead};
use rocks_text::{FilePath, Item, TextFault};
use sqlite_items::Items;
use std::alloc::{AllocError, Global};

/// The files of a rock, each kind in order.
#[derive(Debug, Drop)]
pub struct Gathered {
    pub items: Items<(Item, Bytes)>,
    pub own: Items<(FilePath, Bytes)>,
}

/// The files of the steps taken so far, in the order of these.
#[derive(Drop)]
struct Taken {
    items: Vec<(Item, Bytes)>,
    own: Vec<(FilePath, Bytes)>,
    /// How many bytes these have together.
    size: usize,
}

/// Takes the steps of a rock, each in its turn, in a folder of a server.
///
/// The first step that fails answers: `MissingFile` where the file isn't there, or the step has none; `TooLarge` where
/// it is longer than `LONGEST_FILE`, or with it the rock has more than `MOST_FILES` files or `MOST_BYTES` bytes.
/// `ShelfFault` only where the shelf failed in the call, and `NoMemory` where memory runs out; no other fault.
pub fn gather<F: Shelf>(
    alloc: Global,
    shelf: &mut F,
    server: u32,
    folder: &FilePath,
    steps: Vec<Step>,
) -> Result<Gathered, BuildFault>
    requires { server < (F.state shelf.old).servers }
    ensures gathers { IfOk result
        (Gathers (F.state shelf.old).holds server folder.now steps.items) }
    ensures fault { IfErr result
        (IsFaultOf (F.state shelf.old).holds server folder.now steps.items) }
    ensures asks { Asks result (F.state shelf.old) (F.state shelf.new) }
{
    let mut taken = Taken {
        items: Vec::new(alloc),
        own: Vec::new(alloc),
        size: 0,
    };
    for step in steps {
        take_step(alloc, shelf, server, folder, step, &mut taken)?;
    }
    Ok(in_order(taken)?)
}

// One step more, behind those before it.
fn take_step<F: Shelf>(
    alloc: Global,
    shelf: &mut F,
    server: u32,
    folder: &FilePath,
    step: Step,
    taken: &mut Taken,
) -> Result<(), BuildFault>
    requires server { server < (F.state shelf.old).servers }
    requires limits { IsWithinLimits taken.old }
    ensures taken { (front : List Step) → result ≡ Ok tt
        → AreTaken (F.state shelf.old).holds server folder.now front taken.old
        → AreTaken (F.state shelf.old).holds server folder.now (front ++ step ∷ []) taken.new }
    ensures fault { (front rest : List Step)
        → AreTaken (F.state shelf.old).holds server folder.now front taken.old
        → IfErr result
        (IsFaultOf (F.state shelf.old).holds server folder.now (front ++ step ∷ rest)) }
    ensures asks { Asks result (F.state shelf.old) (F.state shelf.new) }
{
    match step {
        Step::Read(source) => read_source(alloc, shelf, server, folder, source, taken),
        Step::NoFile(folder) => Err(BuildFault::MissingFile(folder)),
    }
}

// Reads the file of a source, and keeps it if the rock may have it.
fn read_source<F: Shelf>(
    alloc: Global,
    shelf: &mut F,
    server: u32,
    folder: &FilePath,
    source: Source,
    taken: &mut Taken,
) -> Result<(), BuildFault>
    requires server { server < (F.state shelf.old).servers }
    requires limits { IsWithinLimits taken.old }
    ensures taken { (front : List Step) → result ≡ Ok tt
        → AreTaken (F.state shelf.old).holds server folder.now front taken.old
        → AreTaken (F.state shelf.old).holds server folder.now
        (front ++ Step.Read source ∷ []) taken.new }
    ensures fault { (front rest : List Step)
        → AreTaken (F.state shelf.old).holds server folder.now front taken.old
        → IfErr result (IsFaultOf (F.state shelf.old).holds server folder.now
        (front ++ Step.Read source ∷ rest)) }
    ensures asks { Asks result (F.state shelf.old) (F.state shelf.new) }
{
    let Source { part, from } = source;
    let read = read_file(alloc, shelf, server, folder, &from)?;
    let bytes = within_limits(alloc, &from, taken, read)?;
    Ok(add(taken, part, bytes)?)
}

// A file of the folder. One whose whole path is too long for a server isn't there.
fn read_file<F: Shelf>(
    alloc: Global,
    shelf: &mut F,
    server: u32,
    folder: &FilePath,
    from: &FilePath,
) -> Result<ShelfRead, BuildFault>
    requires { server < (F.state shelf.old).servers }
    ensures found { IfOk result (λ read. OnServer (F.state shelf.old).holds server
        (λ files. IsRead LONGEST_FILE (held_in files folder.now from.now) read)) }
    ensures within { IfOk result (IsWithin LONGEST_FILE) }
    ensures fault { IfErr result IsOutside }
    ensures asks { Asks result (F.state shelf.old) (F.state shelf.new) }
{
    let folder = folder.as_str();
    let from = from.as_str();
    match FilePath::from_text(alloc, &format!(in alloc; "{folder}/{from}")?) {
        Ok(path) => Ok(shelf.read(alloc, server, &path, LONGEST_FILE)?),
        Err(TextFault::NoMemory) => Err(BuildFault::NoMemory),
        Err(_) => Ok(ShelfRead::Absent),
    }
}

// The bytes of one file more, if the rock may have them.
fn within_limits(
    alloc: Global,
    from: &FilePath,
    taken: &Taken,
    read: ShelfRead,
) -> Result<Bytes, BuildFault>
    requires limits { IsWithinLimits taken.now }
    requires within { IsWithin LONGEST_FILE read }
    ensures bytes { IfOk result (λ bytes. read ≡ shelf_read.Bytes bytes) }
    ensures fits { IfOk result (λ bytes. IsTrue (fits_behind taken.now bytes)) }
    ensures fault { IfErr result (IsLimitFault from.now taken.now read) }
{
    match read {
        ShelfRead::Absent => Err(BuildFault::MissingFile(from.copy(alloc)?)),
        ShelfRead::Bytes(bytes) if fits(taken, bytes.as_slice()) => Ok(bytes),
        _ => Err(BuildFault::TooLarge(from.copy(alloc)?)),
    }
}

// Whether the rock may have these bytes as one file more.
fn fits(taken: &Taken, bytes: &[u8]) -> bool
    requires limits { IsWithinLimits taken.now }
    requires within { length bytes.now < 2 ^ 32 }
    ensures { result ≡ fits_behind taken.now bytes.now }
{
    taken.items.len() + taken.own.len() < MOST_FILES && taken.size + bytes.len() <= MOST_BYTES
}

// Puts a file behind those of its kind.
fn add(taken: &mut Taken, part: Part, bytes: Bytes) -> Result<(), AllocError>
    requires { taken.old.size + length bytes < 2 ^ 64 }
    ensures items { OnOk result
        (taken.new.items.items ≡ taken.old.items.items ++ items_with part bytes) }
    ensures own { OnOk result
        (taken.new.own.items ≡ taken.old.own.items ++ own_with part bytes) }
    ensures size { taken.new.size ≡ taken.old.size + length bytes }
{
    taken.size += bytes.as_slice().len();
    match part {
        Part::Item(item) => taken.items.push((item, bytes))?,
        Part::Own(path) => taken.own.push((path, bytes))?,
    }
    Ok(())
}

// The files, each kind in order. The only error is want of memory.
fn in_order(taken: Taken) -> Result<Gathered, AllocError>
    ensures { IfOk result (Sorts taken.items.items taken.own.items) }
{
    let Taken {
        mut items,
        mut own,
        ..
    } = taken;
    items.sort_by(|left, right| left.0.cmp(&right.0))?;
    own.sort_by(|left, right| left.0.cmp(&right.0))?;
    Ok(Gathered {
        items: Items::from_vec(items),
        own: Items::from_vec(own),
    })
}
