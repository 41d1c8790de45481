//! Objects that note their calls, and fail at a chosen one and at each behind it. Contracts learn nothing of what they
//! hold.

use rocks_outside::{Device, DeviceError, MemoryShelf, Shelf, ShelfError, ShelfRead};
use rocks_text::{FilePath, TreePath};
use std::alloc::Global;

/// How many calls are still done, and how often one has failed.
#[derive(Drop)]
struct Fuse {
    calls_left: u64,
    faults: u64,
}

impl Fuse {
    ghost use Rattle.std.specs.Prelude.{◌≡◌, ◌≤◌, true, false};
    ghost use Rattle.rocks_outside.specs.Counts.{HasRisen};

    fn burns(&mut self) -> bool
        ensures rises { self.old.faults ≤ self.new.faults }
        ensures risen { result ≡ true → HasRisen self.old.faults self.new.faults }
        ensures stands { result ≡ false → self.new.faults ≡ self.old.faults }
    {
        if self.calls_left > 0 {
            self.calls_left -= 1;
            return false;
        }
        self.faults = self.faults.saturating_add(1);
        true
    }
}

/// An empty tree. It keeps what is said to it and the names of its calls, and no file.
#[derive(Drop)]
pub struct FailingDevice {
    /// What was said. A call that failed has said its first byte.
    pub said: Vec<u8>,
    /// The names of the calls, that of one that failed among them.
    pub calls: Vec<&'static str>,
    fuse: Fuse,
    clock: u64,
    looks: u64,
}

impl FailingDevice {
    /// A device on which so many calls are done and then none. It takes no memory.
    pub fn new(alloc: Global, calls_left: u64) -> FailingDevice {
        FailingDevice {
            said: Vec::new(alloc),
            calls: Vec::new(alloc),
            fuse: Fuse {
                calls_left,
                faults: 0,
            },
            clock: 0,
            looks: 0,
        }
    }
}

impl FailingDevice {
    ghost use Rattle.std.specs.Prelude.{◌≡◌, None};
    ghost use Rattle.rocks_outside.specs.Device.{IsCounted, Ticks, CountsFaults};

    fn look(&mut self, call: &'static str) -> Result<(), DeviceError>
        ensures looks { IsCounted result self.old.looks self.new.looks }
        ensures clock { self.new.clock ≡ self.old.clock }
        ensures faults { CountsFaults result self.old.fuse.faults self.new.fuse.faults }
    {
        self.calls.push(call)?;
        self.looks = self.looks.saturating_add(1);
        if self.fuse.burns() {
            return Err(DeviceError::Failed);
        }
        Ok(())
    }

    fn tick(&mut self, call: &'static str) -> Result<(), DeviceError>
        ensures clock { Ticks result None self.old.clock self.new.clock }
        ensures looks { self.new.looks ≡ self.old.looks }
        ensures faults { CountsFaults result self.old.fuse.faults self.new.fuse.faults }
    {
        self.calls.push(call)?;
        self.clock = self.clock.saturating_add(1);
        if self.fuse.burns() {
            return Err(DeviceError::Failed);
        }
        Ok(())
    }
}

impl Device for FailingDevice {
    ghost use Rattle.std.specs.Prelude.{None};

    ghost state = { λ d. record {
      files = None;
      said = None;
      clock = d.clock;
      looks = d.looks;
      faults = d.fuse.faults;
    } };

    ghost tells = { λ _ _. record { files = tt; said = tt } };

    fn read(&mut self, _alloc: Global, _path: &TreePath) -> Result<Option<Vec<u8>>, DeviceError> {
        self.look("read")?;
        Ok(None)
    }

    fn list(&mut self, alloc: Global, _prefix: &str) -> Result<Vec<TreePath>, DeviceError> {
        self.look("list")?;
        Ok(Vec::new(alloc))
    }

    fn write(&mut self, _path: &TreePath, _bytes: &[u8]) -> Result<(), DeviceError> {
        self.tick("write")
    }

    fn rename(&mut self, _from: &TreePath, _to: &TreePath) -> Result<(), DeviceError> {
        self.tick("rename")
    }

    fn remove(&mut self, _path: &TreePath) -> Result<(), DeviceError> {
        self.tick("remove")
    }

    fn sync(&mut self) -> Result<(), DeviceError> {
        self.tick("sync")
    }

    // A call that fails has said a first part.
    fn say(&mut self, bytes: &[u8]) -> Result<(), DeviceError> {
        self.said.extend_from_slice(bytes)?;
        let answer = self.tick("say");
        if answer.is_err() {
            self.said.truncate(1);
        }
        answer
    }
}

/// A shelf in memory that doesn't tell what it holds.
#[derive(Drop)]
pub struct FailingShelf {
    servers: MemoryShelf,
    fuse: Fuse,
}

impl FailingShelf {
    /// A shelf with these servers on which so many calls of `read` and `list` are done and then none. It takes no
    /// memory.
    pub fn new(servers: MemoryShelf, calls_left: u64) -> FailingShelf {
        FailingShelf {
            servers,
            fuse: Fuse {
                calls_left,
                faults: 0,
            },
        }
    }
}

impl Shelf for FailingShelf {
    ghost use Rattle.std.specs.Prelude.{None, length};
    ghost use Rattle.rocks_outside.specs.Memory.{shelf_holds};

    ghost state = { λ shelf. record {
      holds = None;
      servers = length (shelf_holds shelf.servers);
      faults = shelf.fuse.faults;
    } };

    fn servers(&self) -> u32 {
        self.servers.servers()
    }

    fn read(
        &mut self,
        alloc: Global,
        server: u32,
        path: &FilePath,
        limit: u32,
    ) -> Result<ShelfRead, ShelfError> {
        if self.fuse.burns() {
            return Err(ShelfError::Failed);
        }
        self.servers.read(alloc, server, path, limit)
    }

    fn list(
        &mut self,
        alloc: Global,
        server: u32,
        folder: &FilePath,
    ) -> Result<Vec<FilePath>, ShelfError> {
        if self.fuse.burns() {
            return Err(ShelfError::Failed);
        }
        self.servers.list(alloc, server, folder)
    }
}
