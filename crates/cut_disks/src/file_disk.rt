ghost use Rattle.std.specs.Prelude.{◌≡◌, ◌+◌, ◌<◌, ◌^◌, true, length, IfOk, OnOk};
ghost use Rattle.cut_faults.specs.Failures.{counted};

use crate::{Disk, DiskFault, RawFile, SystemFile};
use cut_faults::Failures;
use std::io::{self, ErrorKind};
use std::marker::Model;

/// The longest file that a call may make, in bytes.
const MOST_BYTES: u64 = (1 << 63) - 1;

/// A file of the system as a disk.
///
/// Nothing is promised of what it holds: it is a premise that the system keeps what a sync made durable, and that
/// nobody else writes the file. What is promised is which call of the system is made: a call of the disk that succeeds
/// is exactly that call.
///
/// A sync is `File::sync_all`, which on Linux is the call fsync: the bytes and the length reach the device. The file is
/// never truncated. A call that is interrupted too often is given up, and counts as failed.
///
/// Contracts see the file as its own values, and how many calls failed.
#[derive(Drop)]
pub struct FileDisk<F: RawFile = SystemFile> {
    file: F,
    failures: Failures,
}

impl<F: RawFile> Model for FileDisk<F> {
    ghost use Rattle.cut_disks.specs.OnFile.{OnFile};

    ghost Value = { OnFile F };

    ghost view = { λ d. record { raw = d.file; failures = d.failures } };
}

impl<F: RawFile + Drop> FileDisk<F> {
    /// The disk of a file. It checks that the file is a regular one, locks it, and then syncs its folder. Nothing else
    /// makes a disk of a file.
    pub fn over(file: F) -> Result<FileDisk<F>, DiskFault>
        ensures ready { IfOk result (λ disk. (found : F) × ((locked : F) ×
            (F.kind_reported file true found × F.locked found locked × F.synced_folder locked disk.raw))) }
        ensures faults { IfOk result (λ disk. disk.failures ≡ 0) }
    {
        let mut file = file;
        match make_ready(&mut file) {
            Ok(()) => Ok(FileDisk {
                file,
                failures: Failures::none(),
            }),
            Err(_) => Err(DiskFault),
        }
    }
}

/// Checks that a file is a regular one, locks it, and makes its entry in its folder durable.
fn make_ready<F: RawFile>(file: &mut F) -> io::Result<()>
    ensures { OnOk result ((found : F) × ((locked : F) ×
        (F.kind_reported file.old true found × F.locked found locked × F.synced_folder locked file.new))) }
{
    if !file.is_regular()? {
        return Err(ErrorKind::Unsupported.into());
    }
    file.try_lock()?;
    file.sync_folder()
}

/// Counts a call that failed.
fn count_failure<T>(failures: &mut Failures, outcome: io::Result<T>) -> Result<T, DiskFault>
    ensures value { IfOk result (λ value. outcome ≡ Ok value) }
    ensures faults { failures.new ≡ counted result failures.old }
{
    match outcome {
        Ok(value) => Ok(value),
        Err(_) => {
            failures.add();
            Err(DiskFault)
        }
    }
}

impl<F: RawFile> Disk for FileDisk<F> {
    ghost use Rattle.std.specs.Prelude.{None};

    ghost log = { λ d. record { state = None; failed = d.failures } };

    fn length(&mut self) -> Result<u64, DiskFault>
        ensures called { IfOk result (λ n. F.length_reported self.old.raw n self.new.raw) }
        ensures bound { IfOk result (λ n. n < 2 ^ 63) }
        ensures faults { self.new.failures ≡ counted result self.old.failures }
    {
        let length = length_of(&mut self.file);
        count_failure(&mut self.failures, length)
    }

    fn read(&mut self, at: u64, into: &mut [u8]) -> Result<(), DiskFault>
        ensures called { OnOk result (F.was_read self.old.raw at into.new self.new.raw) }
        ensures faults { self.new.failures ≡ counted result self.old.failures }
    {
        let done = self.file.read_exact_at(into, at);
        count_failure(&mut self.failures, done)
    }

    fn write_at(&mut self, at: u64, put: &[u8]) -> Result<(), DiskFault>
        ensures called { OnOk result (F.wrote self.old.raw at put.now self.new.raw) }
        ensures bound { OnOk result (at + length put.now < 2 ^ 63) }
        ensures faults { self.new.failures ≡ counted result self.old.failures }
    {
        let done = write_within(&mut self.file, at, put);
        count_failure(&mut self.failures, done)
    }

    fn sync(&mut self) -> Result<(), DiskFault>
        ensures called { OnOk result (F.synced_all self.old.raw self.new.raw) }
        ensures faults { self.new.failures ≡ counted result self.old.failures }
    {
        let done = self.file.sync_all();
        count_failure(&mut self.failures, done)
    }

    fn failures(&self) -> u64 {
        self.failures.count()
    }
}

/// How many bytes a file has, below 2^63.
fn length_of<F: RawFile>(file: &mut F) -> io::Result<u64>
    ensures called { IfOk result (λ n. F.length_reported file.old n file.new) }
    ensures bound { IfOk result (λ n. n < 2 ^ 63) }
{
    let length = file.length()?;
    if length > MOST_BYTES {
        return Err(ErrorKind::FileTooLarge.into());
    }
    Ok(length)
}

/// Writes bytes at a place, if the file stays below 2^63 bytes.
fn write_within<F: RawFile>(file: &mut F, at: u64, put: &[u8]) -> io::Result<()>
    ensures called { OnOk result (F.wrote file.old at put.now file.new) }
    ensures bound { OnOk result (at + length put.now < 2 ^ 63) }
{
    if at > MOST_BYTES || put.len() as u64 > MOST_BYTES - at {
        return Err(ErrorKind::FileTooLarge.into());
    }
    file.write_all_at(put, at)
}
