ghost use Rattle.std.specs.Prelude.{◌≡◌, ◌≤◌, ℕ, List, length, IfOk, IfErr, OnErr};
ghost use Rattle.cut_files.specs.Place.{Place, IsOpened, MayNotOpen, closed, IsOpen, StaysElsewhere};
ghost use Rattle.cut_files.specs.Place.{IsContent, IsStart, MayNotRead};

use cut_disks::Disk;
use std::alloc::{AllocError, Global};
use thiserror::Error;

/// What a file is opened for.
#[derive(Clone, Copy, Debug, PartialEq, Eq)]
pub enum Mode {
    /// For reading. The file has to exist, and none is created.
    Existing,
    /// For reading and writing. An empty file is created if nothing is there.
    Create,
}

/// Why a file was not opened, or not read.
#[derive(Clone, Copy, Debug, PartialEq, Eq, Error)]
pub enum OpenFault {
    /// Memory ran out.
    #[error("memory ran out as a file was opened")]
    Memory,
    /// The file does not exist, is not a regular file, may not be opened, is open already, or was not read.
    #[error("a file was not opened or not read")]
    Disk,
}

impl From<AllocError> for OpenFault {
    ghost use Rattle.std.specs.Prelude.{◌≡◌};
    ghost use Rattle.cut_files.specs.declared.files.OpenFault.TheVariants.{Memory};

    ghost from_gives = { λ _ e. e ≡ Memory };

    fn from(_refused: AllocError) -> OpenFault {
        OpenFault::Memory
    }
}

/// What opens files by their paths, and closes them.
///
/// Contracts see what stands at each path; a path is the list of its bytes. A call changes only what stands at its own
/// path. Two texts that lead to the same file are two paths.
///
/// A file is opened as a disk, which the caller owns. While it is open, no other call opens it. If its disk is dropped
/// without `close`, the path stays open, and nothing more is known of the file.
pub trait Files {
    /// The disk of an open file.
    type Disk: Disk + Drop + Send;

    /// What stands at each path.
    ghost log: { Self → List ℕ → Place };

    /// Opens the file at a path. With `Create` an empty file is created if nothing is there.
    ///
    /// # Errors
    /// `Memory` if memory runs out. `Disk` if the file is open already, if what stands there can't be opened, and if
    /// nothing is there and the mode is `Existing`. What stands there is not changed then.
    fn open(&mut self, path: &str, mode: Mode) -> Result<Self::Disk, OpenFault>
        ensures opened { IfOk result
            (λ disk. IsOpened mode (Self.Disk.log disk) (log self.old path.now) (log self.new path.now)) }
        ensures refused { IfErr result (λ fault. MayNotOpen mode fault (log self.old path.now)) }
        ensures stays { OnErr result (log self.new path.now ≡ log self.old path.now) }
        ensures elsewhere { StaysElsewhere path.now (log self.old) (log self.new) };

    /// Gives the disk of an open file back. The file can be opened again, and holds what the disk held.
    fn close(&mut self, path: &str, disk: Self::Disk)
        requires { IsOpen (log self.old path.now) }
        ensures closed { log self.new path.now ≡ closed (Self.Disk.log disk) (log self.old path.now) }
        ensures elsewhere { StaysElsewhere path.now (log self.old) (log self.new) };

    /// The bytes of the file at a path, all of them. It is not locked, and may be open.
    ///
    /// # Errors
    /// `Memory` if memory runs out. `Disk` if no file is there, or it can't be read.
    fn read(&self, alloc: Global, path: &str) -> Result<Vec<u8>, OpenFault>
        ensures content { IfOk result (λ bytes. IsContent bytes.items (log self.now path.now)) }
        ensures refused { IfErr result (λ fault. MayNotRead fault (log self.now path.now)) };

    /// The first bytes of the file at a path, up to a limit. It is not locked, and may be open.
    ///
    /// # Errors
    /// As `read`.
    fn read_start(&self, alloc: Global, path: &str, limit: usize) -> Result<Vec<u8>, OpenFault>
        ensures content { IfOk result (λ bytes. IsStart limit bytes.items (log self.now path.now)) }
        ensures short { IfOk result (λ bytes. length bytes.items ≤ limit) }
        ensures refused { IfErr result (λ fault. MayNotRead fault (log self.now path.now)) };
}
