ghost use Rattle.std.specs.Prelude.{◌≡◌, ◌≤◌, length, IfOk};
ghost use Rattle.std.specs.IoError.{error_kind};
ghost use Rattle.cut_files.specs.inside.Faults.{of_kind};

use crate::{Files, Mode, OpenFault};
use cut_disks::{FileDisk, open_regular};
use std::alloc::Global;
use std::fs::File;
use std::io::{self, ErrorKind, Read};

/// The files of the system. Nothing is known of them: other programs may change them, and no clause says what the
/// system does with a call.
///
/// An open file is a [`FileDisk`], which holds the lock on it. `open` is `FileDisk::open`, or `FileDisk::open_existing`
/// for `Mode::Existing`, with a disk whose writes fail. If a file can't be opened, the fault is `Disk`, whatever the
/// cause. A failed opening with `Mode::Create` may leave a new, empty file.
#[derive(Clone, Copy)]
pub struct SystemFiles<'a> {
    host: &'a HostRuntime,
}

impl<'a> SystemFiles<'a> {
    /// The files that this program may open.
    pub fn of(host: &'a HostRuntime) -> SystemFiles<'a> {
        SystemFiles { host }
    }
}

impl<'a> Files for SystemFiles<'a> {
    type Disk = FileDisk;

    ghost use Rattle.cut_files.specs.Place.{Unknown};

    ghost log = { λ _ _. Unknown };

    fn open(&mut self, path: &str, mode: Mode) -> Result<FileDisk, OpenFault> {
        let opened = match mode {
            Mode::Existing => FileDisk::open_existing(self.host, path),
            Mode::Create => FileDisk::open(self.host, path),
        };
        match opened {
            Ok(disk) => Ok(disk),
            Err(_) => Err(OpenFault::Disk),
        }
    }

    fn close(&mut self, _path: &str, disk: FileDisk) {
        drop(disk);
    }

    fn read(&self, alloc: Global, path: &str) -> Result<Vec<u8>, OpenFault> {
        match read_regular(self.host, alloc, path) {
            Ok(bytes) => Ok(bytes),
            Err(error) => Err(fault_of_file(&error)),
        }
    }

    fn read_start(&self, alloc: Global, path: &str, limit: usize) -> Result<Vec<u8>, OpenFault> {
        match read_regular_start(self.host, alloc, path, limit) {
            Ok(bytes) => Ok(bytes),
            Err(error) => Err(fault_of_file(&error)),
        }
    }
}

/// Why a file was not read: `Memory` if memory ran out, else `Disk`.
fn fault_of_file(error: &io::Error) -> OpenFault
    ensures { result ≡ of_kind (error_kind error.now) }
{
    match error.kind() {
        ErrorKind::OutOfMemory => OpenFault::Memory,
        _ => OpenFault::Disk,
    }
}

/// Reads a regular file up to its end. If a study appends to the file meanwhile, the last bytes may be those of a slip
/// that is not yet kept.
fn read_regular(host: &HostRuntime, alloc: Global, path: &str) -> io::Result<Vec<u8>> {
    let mut file = regular_file(host, path)?;
    let mut bytes = Vec::new(alloc);
    file.read_to_end(&mut bytes)?;
    Ok(bytes)
}

/// Reads a regular file up to its end or a limit. No contract of the system bounds what is read, so the rest is cut
/// off.
fn read_regular_start(
    host: &HostRuntime,
    alloc: Global,
    path: &str,
    limit: usize,
) -> io::Result<Vec<u8>>
    ensures { IfOk result (λ bytes. length bytes.items ≤ limit) }
{
    let mut file = regular_file(host, path)?.take(limit as u64);
    let mut bytes = Vec::new(alloc);
    file.read_to_end(&mut bytes)?;
    bytes.truncate(limit);
    Ok(bytes)
}

/// Opens a regular file for reading. That it is regular is checked again once it is open.
fn regular_file(host: &HostRuntime, path: &str) -> io::Result<File> {
    let file = open_regular(host, path)?;
    if !file.metadata()?.is_file() {
        return Err(ErrorKind::Unsupported.into());
    }
    Ok(file)
}
