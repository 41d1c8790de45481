ghost use Rattle.std.specs.Prelude.{◌+◌, length};
ghost use Rattle.tree_moves.specs.Moves.{moved, performed, settled_old, staged_in};
ghost use Rattle.tree_moves.specs.Performing.{call_count, old_count, removed_all, Performs};

use crate::{JournalFault, Move, MoveLists, Staged};
use rocks_outside::{Device, DeviceError};
use rocks_text::TreePath;
use std::alloc::Global;

/// The folder of files that are to go away.
const OLD_FOLDER: &str = "lib/luarocks/work/old/";

/// Makes the moves on a device: writes the new files and makes them durable, makes the moves out of the way and then those
/// to their places, takes away what stands in `old/` of the work folder, and makes all of that durable.
///
/// `DeviceFault` comes only where the device failed in the call, and `NoMemory` where memory runs out. After either, the
/// files are those of some moment between.
pub fn perform<V: Device>(
    alloc: Global,
    device: &mut V,
    moves: &MoveLists,
) -> Result<(), JournalFault>
    ensures { Performs JournalFault.DeviceFault result (performed moves.now) (call_count moves.now)
        (V.state device.old) (V.state device.new) }
{
    prepare(device, moves.staged.as_slice())?;
    move_both(device, moves.aside.as_slice(), moves.place.as_slice())?;
    finish(alloc, device)?;
    Ok(())
}

// Writes the new files, and makes them durable.
fn prepare<V: Device>(device: &mut V, staged: &[Staged]) -> Result<(), DeviceError>
    ensures { Performs DeviceError.Failed result (staged_in staged.now)
        (λ _. length staged.now + 1) (V.state device.old) (V.state device.new) }
{
    stage(device, staged)?;
    device.sync()
}

fn stage<V: Device>(device: &mut V, staged: &[Staged]) -> Result<(), DeviceError>
    ensures { Performs DeviceError.Failed result (staged_in staged.now)
        (λ _. length staged.now) (V.state device.old) (V.state device.new) }
{
    for file in staged {
        device.write(&file.at, file.bytes.as_slice())?;
    }
    Ok(())
}

// Makes the moves out of the way, and then those to their places.
fn move_both<V: Device>(device: &mut V, aside: &[Move], place: &[Move]) -> Result<(), DeviceError>
    ensures { Performs DeviceError.Failed result (λ files. moved place.now (moved aside.now files))
        (λ _. length aside.now + length place.now) (V.state device.old) (V.state device.new) }
{
    move_all(device, aside)?;
    move_all(device, place)
}

fn move_all<V: Device>(device: &mut V, moves: &[Move]) -> Result<(), DeviceError>
    ensures { Performs DeviceError.Failed result (moved moves.now)
        (λ _. length moves.now) (V.state device.old) (V.state device.new) }
{
    for one in moves {
        device.rename(&one.from, &one.to)?;
    }
    Ok(())
}

// Takes away all that stands in `old/`, and makes all durable.
fn finish<V: Device>(alloc: Global, device: &mut V) -> Result<(), DeviceError>
    ensures { Performs DeviceError.Failed result settled_old
        (λ files. old_count files + 1) (V.state device.old) (V.state device.new) }
{
    clear_old(alloc, device)?;
    device.sync()
}

fn clear_old<V: Device>(alloc: Global, device: &mut V) -> Result<(), DeviceError>
    ensures { Performs DeviceError.Failed result settled_old old_count
        (V.state device.old) (V.state device.new) }
{
    let paths = device.list(alloc, OLD_FOLDER)?;
    remove_all(device, &paths)
}

fn remove_all<V: Device>(device: &mut V, paths: &[TreePath]) -> Result<(), DeviceError>
    ensures { Performs DeviceError.Failed result (removed_all paths.now)
        (λ _. length paths.now) (V.state device.old) (V.state device.new) }
{
    for path in paths {
        device.remove(path)?;
    }
    Ok(())
}
