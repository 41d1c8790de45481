// The commands `add NAME VERSION` and `install NAME VERSION`.
ghost use Rattle.std.specs.Prelude.{◌≡◌, ◌≤◌, List, map, IfOk, IfErr, OnOk, IsErrOf};
ghost use Rattle.rock_build.specs.Contents.{IsWellMade};
ghost use Rattle.rock_record.specs.declared.rock.Rock.{Rock as Whole};
ghost use Rattle.tree_model.specs.Tree.{file_at};
ghost use Rattle.rocks_session.specs.Execute.{Executes};
ghost use Rattle.rocks_session.specs.Installing.{Installs, JoinsTree, Writes};
ghost use Rattle.rocks_session.specs.Opened.{IsOpenAs};
ghost use Rattle.rocks_session.specs.Step.{command_from};

use crate::unmet::unmet;
use crate::{Refusal, Reply, RockKey, SessionFault, Tree};
use rock_record::{Rock, rock_manifest_text};
use rocks_outside::{Device, DeviceError, Shelf};
use rocks_reply::{added_text, refused};
use served_rocks::{Origin, Unserved, fetch};
use std::alloc::Global;
use tree_model::{Staged, files};

/// Takes a rock from the earliest server that has its rockspec into the tree.
pub(crate) fn add<V: Device, F: Shelf>(
    alloc: Global,
    tree: &mut Tree,
    device: &mut V,
    shelf: &mut F,
    key: &RockKey,
    origin: Origin,
) -> Result<Reply, SessionFault>
    requires { (set : List Whole) × IsOpenAs set tree.old (V.state device.old) }
    ensures { Executes (command_from origin key.now) result tree.old tree.new
        (V.state device.old) (V.state device.new) (F.state shelf.old) (F.state shelf.new) }
{
    if key.name.as_str() == "lua" {
        return Ok(refused(alloc, Refusal::Provided)?);
    }
    match fetch(alloc, shelf, key, origin) {
        Ok(rock) => join(alloc, tree, device, &rock),
        Err(Unserved::Refused(refusal)) => Ok(refused(alloc, refusal)?),
        Err(Unserved::Failed(error)) => Err(SessionFault::from(error)),
    }
}

// Takes a rock into the tree, if all that it needs is met. What takes our own memory comes first.
fn join<V: Device>(
    alloc: Global,
    tree: &mut Tree,
    device: &mut V,
    rock: &Rock,
) -> Result<Reply, SessionFault>
    requires { IsWellMade rock.now }
    ensures { JoinsTree rock.now result tree.old tree.new
        (V.state device.old) (V.state device.new) }
{
    if let Some(dependency) = unmet(alloc, tree.keys(), rock)? {
        let dependency = dependency.copy(alloc)?;
        return Ok(refused(alloc, Refusal::Unmet { dependency })?);
    }
    let record = rock_manifest_text(alloc, rock)?;
    let files = files(alloc, rock, record.as_slice())?;
    let text = added_text(alloc, &rock.key)?;
    install(alloc, tree, device, &rock.key, &files)?;
    Ok(Reply {
        refusal: None,
        text,
    })
}

// Adds a rock to the tree, and writes its files.
fn install<V: Device>(
    alloc: Global,
    tree: &mut Tree,
    device: &mut V,
    key: &RockKey,
    files: &[Staged],
) -> Result<(), SessionFault>
    ensures { Installs result key.now (map file_at files.now) tree.old tree.new
        (V.state device.old) (V.state device.new) }
{
    tree.push(key.copy(alloc)?)?;
    write_all(device, files)?;
    device.sync()?;
    Ok(())
}

fn write_all<V: Device>(device: &mut V, files: &[Staged]) -> Result<(), DeviceError>
    ensures { Writes result (map file_at files.now) (V.state device.old) (V.state device.new) }
{
    for file in files {
        device.write(&file.at, file.bytes)?;
    }
    Ok(())
}
