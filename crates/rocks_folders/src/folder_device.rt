ghost use Rattle.std.specs.Prelude.{◌≡◌, [], None};
ghost use Rattle.rocks_outside.specs.Device.{CountsFaults, IsCounted, Ticks};

use crate::folder_tree::FolderTree;
use rocks_bytes::Text;
use rocks_outside::{Device, DeviceError};
use rocks_text::TreePath;
use std::alloc::Global;
use std::rt::Files;

/// A tree in a real folder, which says to standard output. It tells nothing of its files.
#[derive(Drop)]
pub struct FolderDevice<R: Files + AllocGlobal + Print + Clone + Drop> {
    rt: R,
    tree: FolderTree<R>,
    counts: DeviceCounts,
}

/// How many calls a device has answered, and how many it has failed.
#[derive(Drop)]
struct DeviceCounts {
    clock: u64,
    looks: u64,
    faults: u64,
}

impl<R: Files + AllocGlobal + Print + Copy + Clone + Drop> FolderDevice<R> {
    /// A tree in this folder.
    pub fn new(rt: R, root: Text) -> FolderDevice<R>
        ensures root { result.tree.root ≡ root }
        ensures clock { result.counts.clock ≡ 0 }
        ensures looks { result.counts.looks ≡ 0 }
        ensures faults { result.counts.faults ≡ 0 }
        ensures unsynced { result.tree.unsynced.paths.items ≡ [] }
    {
        FolderDevice {
            rt,
            tree: FolderTree::new(rt, root),
            counts: DeviceCounts {
                clock: 0,
                looks: 0,
                faults: 0,
            },
        }
    }
}

impl DeviceCounts {
    // Counts a look at the files.
    fn looked<T>(&mut self, answer: &Result<T, DeviceError>)
        ensures looks { IsCounted answer.now self.old.looks self.new.looks }
        ensures clock { self.new.clock ≡ self.old.clock }
        ensures faults { CountsFaults answer.now self.old.faults self.new.faults }
    {
        match answer {
            Ok(_) => self.looks = self.looks.saturating_add(1),
            Err(DeviceError::Failed) => {
                self.looks = self.looks.saturating_add(1);
                self.faults = self.faults.saturating_add(1);
            }
            Err(DeviceError::NoMemory) => {}
        }
    }

    // Counts a change, or something said.
    fn ticked<T>(&mut self, answer: &Result<T, DeviceError>)
        ensures clock { Ticks answer.now None self.old.clock self.new.clock }
        ensures looks { self.new.looks ≡ self.old.looks }
        ensures faults { CountsFaults answer.now self.old.faults self.new.faults }
    {
        match answer {
            Ok(_) => self.clock = self.clock.saturating_add(1),
            Err(DeviceError::Failed) => {
                self.clock = self.clock.saturating_add(1);
                self.faults = self.faults.saturating_add(1);
            }
            Err(DeviceError::NoMemory) => {}
        }
    }
}

impl<R: Files + AllocGlobal + Print + Clone + Drop> Device for FolderDevice<R> {
    ghost use Rattle.std.specs.Prelude.{None};

    ghost state = { λ d. record {
      files = None;
      said = None;
      clock = d.counts.clock;
      looks = d.counts.looks;
      faults = d.counts.faults;
    } };

    ghost tells = { λ _ _. record { files = tt; said = tt } };

    fn read(&mut self, _alloc: Global, path: &TreePath) -> Result<Option<Vec<u8>>, DeviceError> {
        let answer = self.tree.read(path);
        self.counts.looked(&answer);
        answer
    }

    fn list(&mut self, alloc: Global, prefix: &str) -> Result<Vec<TreePath>, DeviceError> {
        let answer = self.tree.list(alloc, prefix);
        self.counts.looked(&answer);
        answer
    }

    fn write(&mut self, path: &TreePath, bytes: &[u8]) -> Result<(), DeviceError> {
        let answer = self.tree.write(path, bytes);
        self.counts.ticked(&answer);
        answer
    }

    fn rename(&mut self, from: &TreePath, to: &TreePath) -> Result<(), DeviceError> {
        let answer = self.tree.rename(from, to);
        self.counts.ticked(&answer);
        answer
    }

    fn remove(&mut self, path: &TreePath) -> Result<(), DeviceError> {
        let answer = self.tree.remove(path);
        self.counts.ticked(&answer);
        answer
    }

    fn sync(&mut self) -> Result<(), DeviceError> {
        let answer = self.tree.sync();
        self.counts.ticked(&answer);
        match answer {
            Ok(_) => Ok(()),
            Err(fault) => Err(fault),
        }
    }

    fn say(&mut self, bytes: &[u8]) -> Result<(), DeviceError> {
        let answer = match self.rt.write_all(bytes) {
            Ok(()) => Ok(()),
            Err(_) => Err(DeviceError::Failed),
        };
        self.counts.ticked(&answer);
        answer
    }
}
