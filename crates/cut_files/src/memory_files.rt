ghost use Rattle.std.specs.Prelude.{◌≡◌, ℕ, List, Some, None, IfOk, IfErr, OnOk, OnErr, option_copied};
ghost use Rattle.cut_files.specs.Place.{new_file};
ghost use Rattle.cut_files.specs.declared.files.OpenFault.TheVariants as open_fault;
ghost use Rattle.cut_files.specs.declared.memory_files.FileState.TheVariants.{Refused, Open, Held};
ghost use Rattle.cut_files.specs.Memory.{kept_at, disk_of, KeepsElsewhere};
ghost use Rattle.cut_files.specs.inside.Memory.{TakesOut};

use crate::{Files, InMemory, Mode, OpenFault};
use cut_disks::MemoryDisk;
use std::alloc::{AllocError, Global};
use std::collections::BTreeMap;
use std::mem;

/// What stands at a path.
#[derive(Drop)]
pub enum FileState<D> {
    /// Something that can't be opened.
    Refused,
    /// A file that is open.
    Open,
    /// A file that is not open, with its disk.
    Held(D),
}

/// Files in memory, to try out what a program does with files. Each is a disk that `put` put there or `open` created.
#[derive(Drop)]
pub struct MemoryFiles<D = MemoryDisk> {
    alloc: Global,
    files: BTreeMap<String, FileState<D>>,
}

impl<D: InMemory + Drop> MemoryFiles<D> {
    /// No files.
    pub fn new(alloc: Global) -> MemoryFiles<D>
        ensures { (path : List ℕ) → kept_at result path ≡ None }
    {
        MemoryFiles {
            alloc,
            files: BTreeMap::new(alloc),
        }
    }

    /// Puts a file with this disk at a path, in place of what stood there. If memory runs out, nothing is changed.
    pub fn put(&mut self, path: &str, disk: D) -> Result<(), AllocError>
        ensures put { OnOk result (kept_at self.new path.now ≡ Some (Held disk)) }
        ensures stays { OnErr result (kept_at self.new path.now ≡ kept_at self.old path.now) }
        ensures elsewhere { KeepsElsewhere path.now self.old self.new }
    {
        self.keep(path, FileState::Held(disk))
    }

    /// Puts something at a path that can't be opened, in place of what stood there. If memory runs out, nothing is
    /// changed.
    pub fn refuse(&mut self, path: &str) -> Result<(), AllocError>
        ensures refused { OnOk result (kept_at self.new path.now ≡ Some Refused) }
        ensures stays { OnErr result (kept_at self.new path.now ≡ kept_at self.old path.now) }
        ensures elsewhere { KeepsElsewhere path.now self.old self.new }
    {
        self.keep(path, FileState::Refused)
    }

    /// The disk of the file at a path, if there is one that is not open.
    pub fn disk(&self, path: &str) -> Option<&D>
        ensures { option_copied result ≡ disk_of (kept_at self.now path.now) }
    {
        match self.files.get(path) {
            Some(FileState::Held(disk)) => Some(disk),
            _ => None,
        }
    }

    /// Sets what stands at a path. If memory runs out, nothing is changed.
    fn keep(&mut self, path: &str, kept: FileState<D>) -> Result<(), AllocError>
        ensures kept { OnOk result (kept_at self.new path.now ≡ Some kept) }
        ensures stays { OnErr result (kept_at self.new path.now ≡ kept_at self.old path.now) }
        ensures elsewhere { KeepsElsewhere path.now self.old self.new }
    {
        let path = String::from_str(self.alloc, path)?;
        self.files.insert(path, kept)?;
        Ok(())
    }

    /// Creates an empty file at a path, and opens it. If memory runs out, nothing is changed.
    fn make(&mut self, path: &str) -> Result<D, OpenFault>
        ensures made { IfOk result (λ disk. D.log disk ≡ new_file) }
        ensures open { OnOk result (kept_at self.new path.now ≡ Some Open) }
        ensures refused { IfErr result (λ fault. fault ≡ open_fault.Memory) }
        ensures stays { OnErr result (kept_at self.new path.now ≡ kept_at self.old path.now) }
        ensures elsewhere { KeepsElsewhere path.now self.old self.new }
    {
        let disk = D::empty(self.alloc)?;
        self.keep(path, FileState::Open)?;
        Ok(disk)
    }
}

/// Takes the disk of a file that is not open, which is open from then on.
fn take_out<D: Drop>(kept: &mut FileState<D>) -> Result<D, OpenFault>
    ensures { TakesOut result kept.old kept.new }
{
    match mem::replace(kept, FileState::Open) {
        FileState::Held(disk) => Ok(disk),
        FileState::Open => Err(OpenFault::Disk),
        FileState::Refused => {
            *kept = FileState::Refused;
            Err(OpenFault::Disk)
        }
    }
}

impl<D: InMemory + Drop + Send> Files for MemoryFiles<D> {
    type Disk = D;

    ghost use Rattle.cut_files.specs.Memory.{place_at};

    ghost log = { place_at D.log };

    fn open(&mut self, path: &str, mode: Mode) -> Result<D, OpenFault> {
        match self.files.get_mut(path) {
            Some(kept) => take_out(kept),
            None => match mode {
                Mode::Existing => Err(OpenFault::Disk),
                Mode::Create => self.make(path),
            },
        }
    }

    fn close(&mut self, path: &str, disk: D) {
        if let Some(kept) = self.files.get_mut(path) {
            *kept = FileState::Held(disk);
        }
    }

    fn read(&self, alloc: Global, path: &str) -> Result<Vec<u8>, OpenFault> {
        match self.files.get(path) {
            Some(FileState::Held(disk)) => Ok(Vec::from_slice(alloc, disk.bytes())?),
            _ => Err(OpenFault::Disk),
        }
    }

    fn read_start(&self, alloc: Global, path: &str, limit: usize) -> Result<Vec<u8>, OpenFault> {
        match self.files.get(path) {
            Some(FileState::Held(disk)) => {
                let bytes = disk.bytes();
                let count = bytes.len().min(limit);
                Ok(Vec::from_slice(alloc, &bytes[..count])?)
            }
            _ => Err(OpenFault::Disk),
        }
    }
}
