ghost use Rattle.std.specs.Prelude.{◌≡◌, ◌+◌, ◌<◌, ◌≤◌, ◌^◌, length, IfOk, OnOk};
ghost use Rattle.cut_faults.specs.Failures.{counted};
ghost use Rattle.cut_disks.specs.State.{WritesDisk, Syncs};
ghost use Rattle.cut_disks.specs.Log.{DiskLog, Goes, Knows, Measures, ReadsDisk};

use thiserror::Error;

/// A call of a disk failed.
#[derive(Clone, Copy, Debug, PartialEq, Eq, Error)]
#[error("a call of the disk failed")]
pub struct DiskFault;

/// A device whose bytes are read and written at places. It counts its failed calls.
///
/// Contracts see its log: what is on it, if that is known, and how many of its calls failed. Each call is one relation
/// between two logs. For a disk in memory it is known what a call did and what a crash may leave at each moment. For a
/// real file that is a premise, and no clause says it.
///
/// A failed call adds one to the count, which stays at 2^64 - 1 once it is there. Other calls leave it.
pub trait Disk {
    /// What is known of the disk.
    ghost log: { Self → DiskLog };

    /// How many bytes there are.
    fn length(&mut self) -> Result<u64, DiskFault>
        ensures bound { IfOk result (λ n. n < 2 ^ 63) }
        ensures measures { Goes (counted result) (Measures result) (log self.old) (log self.new) };

    /// Fills `into` with the bytes from `at` on, which have to be there. What reads give is one of the contents that a
    /// crash could leave now.
    fn read(&mut self, at: u64, into: &mut [u8]) -> Result<(), DiskFault>
        requires { Knows (log self.old) (λ d. at + length into.old ≤ length d.bytes) }
        ensures reads { Goes (counted result) (ReadsDisk result at into.old into.new) (log self.old) (log self.new) };

    /// Writes bytes from `at` on, which is at most the length. A write past the end makes the disk longer. A write that
    /// would make it 2^63 bytes long fails.
    fn write_at(&mut self, at: u64, put: &[u8]) -> Result<(), DiskFault>
        requires { Knows (log self.old) (λ d. at ≤ length d.bytes) }
        ensures bound { OnOk result (at + length put.now < 2 ^ 63) }
        ensures writes { Goes (counted result) (WritesDisk result at put.now) (log self.old) (log self.new) };

    /// Makes what was written durable, whatever crash may come.
    fn sync(&mut self) -> Result<(), DiskFault>
        ensures syncs { Goes (counted result) (Syncs result) (log self.old) (log self.new) };

    /// How many of its calls failed.
    fn failures(&self) -> u64
        ensures { result ≡ (log self.now).failed };
}

/// A borrowed disk is a disk.
impl<D: Disk> Disk for &mut D {
    ghost log = { λ d. D.log d.now };

    fn length(&mut self) -> Result<u64, DiskFault> {
        (**self).length()
    }

    fn read(&mut self, at: u64, into: &mut [u8]) -> Result<(), DiskFault> {
        (**self).read(at, into)
    }

    fn write_at(&mut self, at: u64, put: &[u8]) -> Result<(), DiskFault> {
        (**self).write_at(at, put)
    }

    fn sync(&mut self) -> Result<(), DiskFault> {
        (**self).sync()
    }

    fn failures(&self) -> u64 {
        (**self).failures()
    }
}
