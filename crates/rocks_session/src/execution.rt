ghost use Rattle.std.specs.Prelude.{List};
ghost use Rattle.rock_record.specs.declared.rock.Rock.{Rock};
ghost use Rattle.rocks_session.specs.Execute.{Executes};
ghost use Rattle.rocks_session.specs.Opened.{IsOpenAs};

use crate::add::add;
use crate::compare::compare;
use crate::eval::eval;
use crate::lint::lint;
use crate::{Command, Reply, SessionFault, Tree};
use rocks_outside::{Device, Shelf};
use served_rocks::Origin;
use std::alloc::Global;

/// Carries one command out on a tree that was opened, over the servers of a shelf. All files of a rock are read
/// before the first one is written; then they are written, and synced.
///
/// A refusal changes no file and not the tree, and neither do `lint`, `eval` and `compare`, whatever they answer.
/// `DeviceFault` and `ShelfFault` come only where the device or the shelf failed in the call, and `NoMemory` where
/// memory runs out. After `ShelfFault` all is as before; after the others the device is opened again.
pub fn execute<V: Device, F: Shelf>(
    alloc: Global,
    tree: &mut Tree,
    device: &mut V,
    shelf: &mut F,
    command: &Command,
) -> Result<Reply, SessionFault>
    requires { (set : List Rock) × IsOpenAs set tree.old (V.state device.old) }
    ensures { Executes command.now result tree.old tree.new
        (V.state device.old) (V.state device.new) (F.state shelf.old) (F.state shelf.new) }
{
    match command {
        Command::Add(key) => add(alloc, tree, device, shelf, key, Origin::Unpacked),
        Command::Install(key) => add(alloc, tree, device, shelf, key, Origin::Sources),
        Command::Lint(key) => lint(alloc, shelf, key),
        Command::Eval(path) => eval(alloc, shelf, path),
        Command::Compare(left, right) => Ok(compare(alloc, left, right)?),
    }
}
