ghost use Rattle.std.specs.Prelude.{◌≡◌, IfOk};
ghost use Rattle.cut_disks.specs.Log.{Knows};
ghost use Rattle.cut_files.specs.Place.{new_file};

use cut_disks::{Disk, FaultyDisk, MemoryDisk, Tear};
use std::alloc::{AllocError, Global};

/// A disk in memory: it is made if a file is made, and its bytes can be looked at without a call of it.
pub trait InMemory: Disk {
    /// The disk of a file that was just made.
    fn empty(alloc: Global) -> Result<Self, AllocError>
        ensures { IfOk result (λ disk. Self.log disk ≡ new_file) };

    /// The bytes, as reads give them.
    fn bytes(&self) -> &[u8]
        ensures { Knows (Self.log self.now) (λ d. result.now ≡ d.bytes) };
}

impl InMemory for MemoryDisk {
    fn empty(alloc: Global) -> Result<MemoryDisk, AllocError> {
        MemoryDisk::of(alloc, Vec::new(alloc))
    }

    fn bytes(&self) -> &[u8] {
        self.bytes()
    }
}

/// A file that was just made is one whose calls do not fail: put a file there to have one that does.
impl InMemory for FaultyDisk {
    fn empty(alloc: Global) -> Result<FaultyDisk, AllocError> {
        FaultyDisk::of(alloc, Vec::new(alloc), 0, Tear::Nothing)
    }

    fn bytes(&self) -> &[u8] {
        self.memory().bytes()
    }
}
