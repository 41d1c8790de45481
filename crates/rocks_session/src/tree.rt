ghost use Rattle.std.specs.Prelude.{◌≡◌, ◌≤◌, List, [], ◌∷◌, ◌++◌, IfOk, IfErr, OnOk, OnErr};
ghost use Rattle.rock_record.specs.declared.rock.Rock.{Rock};
ghost use Rattle.rocks_session.specs.Faults.{IsOpenFault};
ghost use Rattle.rocks_session.specs.Opened.{Opens, IsTreeOf, IsOpenAs};
ghost use Rattle.rocks_session.specs.Run.{IsUntouched};

use crate::{OpenFault, RockKey};
use rocks_outside::Device;
use std::alloc::{AllocError, Global};
use std::marker::Model;

/// The rocks of a tree that was opened, seen as the list of their keys.
#[derive(Drop)]
pub struct Tree {
    rocks: Vec<RockKey>,
}

impl Model for Tree {
    ghost use Rattle.std.specs.Prelude.{List};
    ghost use Rattle.rocks_version.specs.declared.key.RockKey.{RockKey};

    ghost Value = { List RockKey };

    ghost view = { λ t. t.rocks.items };
}

impl Tree {
    pub(crate) fn keys(&self) -> &[RockKey]
        ensures { result.now ≡ self.now }
    {
        &self.rocks
    }

    pub(crate) fn push(&mut self, key: RockKey) -> Result<(), AllocError>
        ensures ok { OnOk result (self.new ≡ self.old ++ key ∷ []) }
        ensures err { OnErr result (self.new ≡ self.old) }
    {
        self.rocks.push(key)?;
        Ok(())
    }
}

/// Opens a tree. Until the records of rocks are written, only the empty tree can be opened again.
///
/// `Damaged` exactly where the device has a file, with the least path; `DeviceFault` only where the device failed;
/// `NoMemory` where memory runs out. Nothing is changed.
pub fn open<V: Device>(alloc: Global, device: &mut V) -> Result<Tree, OpenFault>
    ensures set { IfOk result (λ tree. (set : List Rock) × IsOpenAs set tree (V.state device.new)) }
    ensures only { IfOk result (λ tree. (set : List Rock)
        → Opens (V.state device.old).files set → IsTreeOf set tree) }
    ensures fault { IfErr result (IsOpenFault (V.state device.old) (V.state device.new)) }
    ensures left { IsUntouched (V.state device.old) (V.state device.new) }
    ensures faults { (V.state device.old).faults ≤ (V.state device.new).faults }
{
    let mut paths = device.list(alloc, "")?;
    if paths.is_empty() {
        return Ok(Tree {
            rocks: Vec::new(alloc),
        });
    }
    Err(OpenFault::Damaged(paths.remove(0)))
}
