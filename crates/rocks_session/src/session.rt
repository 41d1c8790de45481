ghost use Rattle.std.specs.Prelude.{◌≡◌, ◌⊎◌, List, map, IfSome, IsErr, Ok, Some, string_bytes};
ghost use Rattle.rocks_outside.specs.Counts.{HasRisen};
ghost use Rattle.rocks_outside.specs.Device.{SaysOnly};
ghost use Rattle.rocks_version.specs.declared.key.RockKey.{RockKey};
ghost use Rattle.rock_record.specs.declared.rock.Rock.{Rock};
ghost use Rattle.rocks_session.specs.Execute.{Executes, IsReadOnly};
ghost use Rattle.rocks_session.specs.Faults.{IsLeastPath};
ghost use Rattle.rocks_session.specs.Opened.{IsOpenAs, Opens};
ghost use Rattle.rocks_session.specs.Run.{HasRun, HasRunUnless, Runs};
ghost use Rattle.rocks_session.specs.Run.{IsUntouched, OnlySays, SaysAtMost};
ghost use Rattle.rocks_command.specs.Words.{command_of};

use crate::{
    Command, OpenFault, Reply, SessionFault, Status, Tree, WordsFault, execute, open, read_words,
};
use rocks_outside::{Device, DeviceError, Shelf, Source};
use rocks_text::TreePath;
use std::alloc::Global;

/// A whole run: reads the words, opens the tree, carries the command out and says its reply with one call of `say`.
/// The input is for commands that read lines, and no command does yet.
///
/// `BadWords` exactly where the words say no command, before anything else is called. `Damaged` exactly where the
/// device has a file, with the least path. `DeviceFault` and `ShelfFault` only where the device or the shelf failed in
/// this call. `NoMemory` where memory runs out. Else `Refused` where the command was refused, and `Done`.
pub fn run<V: Device, F: Shelf, I: Source>(
    alloc: Global,
    words: &[String],
    device: &mut V,
    shelf: &mut F,
    input: &mut I,
) -> Status
    // Where the command was carried out, what was said is the model's reply, and the files are the tree of its set.
    ensures carried { HasRun result → (command : Command)
        × (command_of (map string_bytes words.now) ≡ Ok command)
        × ((set : List Rock) → Opens (V.state device.old).files set
        → Runs command set (F.state shelf.old).holds result
        (V.state device.old) (V.state device.new)) }
    ensures opened { HasRun result → (set : List Rock) × Opens (V.state device.old).files set }
    ensures refused { result ≡ Status.Refused
        → (V.state device.new).files ≡ (V.state device.old).files }
    // A command that only reads changes no file, nor the clock but by the one call of `say`, whatever the status.
    ensures read_only { (command : Command)
        → command_of (map string_bytes words.now) ≡ Ok command → IsReadOnly command
        → OnlySays (V.state device.old) (V.state device.new) }

    // Words that say a command, a tree that opens and objects that don't fail are enough, but for memory.
    ensures complete { (command : Command) (set : List Rock)
        → command_of (map string_bytes words.now) ≡ Ok command
        → IfSome (V.state device.old).files (λ files. Opens (Some files) set
        → HasRunUnless (HasRisen (V.state device.old).faults (V.state device.new).faults)
        (HasRisen (F.state shelf.old).faults (F.state shelf.new).faults) result) }

    // Each other status has its cause.
    ensures bad_words { result ≡ Status.BadWords
        → IsErr (command_of (map string_bytes words.now)) }
    ensures damaged { (path : TreePath) → result ≡ Status.Damaged path
        → IfSome (V.state device.old).files (IsLeastPath path) }
    ensures device_fault { result ≡ Status.DeviceFault
        → HasRisen (V.state device.old).faults (V.state device.new).faults }
    ensures shelf_fault { result ≡ Status.ShelfFault
        → HasRisen (F.state shelf.old).faults (F.state shelf.new).faults }

    // Faulty words come first, and nothing is called. A damaged tree is left as it is, and no server is asked; a server
    // that failed was asked for a tree that opens, which is left too.
    ensures words_first { IsErr (command_of (map string_bytes words.now))
        → (result ≡ Status.BadWords) ⊎ (result ≡ Status.NoMemory) }
    ensures not_called { IsErr (command_of (map string_bytes words.now))
        → (device.new ≡ device.old) × (shelf.new ≡ shelf.old) }
    ensures left_damaged { (path : TreePath) → result ≡ Status.Damaged path
        → IsUntouched (V.state device.old) (V.state device.new) × (shelf.new ≡ shelf.old) }
    ensures left_by_servers { result ≡ Status.ShelfFault
        → IsUntouched (V.state device.old) (V.state device.new)
        × ((set : List Rock) × Opens (V.state device.old).files set) }

    // Whatever the status, no more was said than a first part of the model's reply.
    ensures said { SaysAtMost (command_of (map string_bytes words.now)) (F.state shelf.old).holds
        (V.state device.old) (V.state device.new) }
    ensures holds { (F.state shelf.new).holds ≡ (F.state shelf.old).holds }
    ensures input { input.new ≡ input.old }
{
    let _ = input;
    let command = match read_words(alloc, words) {
        Ok(command) => command,
        Err(WordsFault::NoMemory) => return Status::NoMemory,
        Err(_) => return Status::BadWords,
    };
    let tree = match open(alloc, device) {
        Ok(tree) => tree,
        Err(OpenFault::Damaged(path)) => return Status::Damaged { path },
        Err(OpenFault::DeviceFault) => return Status::DeviceFault,
        Err(OpenFault::NoMemory) => return Status::NoMemory,
    };
    let reply = match carry_out(alloc, tree, device, shelf, command) {
        Ok(reply) => reply,
        Err(SessionFault::DeviceFault) => return Status::DeviceFault,
        Err(SessionFault::ShelfFault) => return Status::ShelfFault,
        Err(SessionFault::NoMemory) => return Status::NoMemory,
    };
    let is_refused = reply.refusal.is_some();
    match say(device, reply) {
        Ok(()) if is_refused => Status::Refused,
        Ok(()) => Status::Done,
        Err(DeviceError::Failed) => Status::DeviceFault,
        Err(DeviceError::NoMemory) => Status::NoMemory,
    }
}

// Carries a command out on a tree, and lets both go.
fn carry_out<V: Device, F: Shelf>(
    alloc: Global,
    tree: Tree,
    device: &mut V,
    shelf: &mut F,
    command: Command,
) -> Result<Reply, SessionFault>
    requires { (set : List Rock) × IsOpenAs set tree (V.state device.old) }
    ensures { (keys : List RockKey) × Executes command result tree keys
        (V.state device.old) (V.state device.new) (F.state shelf.old) (F.state shelf.new) }
{
    let mut tree = tree;
    execute(alloc, &mut tree, device, shelf, &command)
}

// Says a reply, and lets it go.
fn say<V: Device>(device: &mut V, reply: Reply) -> Result<(), DeviceError>
    ensures { SaysOnly result reply.text (V.state device.old) (V.state device.new) }
{
    device.say(reply.text.as_slice())
}
