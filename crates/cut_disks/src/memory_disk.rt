ghost use Rattle.std.specs.Prelude.{◌≡◌, ◌+◌, ◌≤◌, ◌<◌, ◌^◌, [], length, slice_range, IsOk, IfOk, OnOk, OnErr};
ghost use Rattle.cut_disks.specs.State.{IsImage, WritesDisk, Syncs, overwritten};
ghost use Rattle.cut_disks.specs.Memory.{state_of};
ghost use Rattle.cut_disks.specs.inside.Memory.{with_call, with_failure, Logs};
ghost use Rattle.cut_disks.specs.declared.call.DiskCall.TheVariants.{Write, Torn, Sync};

use crate::{Disk, DiskCall, DiskFault, Written};
use cut_faults::Failures;
use std::alloc::{AllocError, Global};
use std::marker::Model;

/// A disk in memory, which keeps each call that changed something.
///
/// A call fails only if memory runs out, and then it does nothing.
#[derive(Debug, Drop)]
pub struct MemoryDisk {
    alloc: Global,
    first: Vec<u8>,
    calls: Vec<DiskCall>,
    bytes: Vec<u8>,
    failures: Failures,
}

impl Model for MemoryDisk {
    ghost use Rattle.std.specs.Prelude.{◌≡◌};
    ghost use Rattle.cut_disks.specs.Memory.{MemoryDiskValue, state_of};

    ghost Value = { MemoryDiskValue };

    ghost view = { λ d. record { first = d.first.items; calls = d.calls.items; failures = d.failures } };

    ghost invariant = { λ d. d.bytes.items ≡
        (state_of (record { first = d.first.items; calls = d.calls.items; failures = d.failures })).bytes };
}

impl MemoryDisk {
    /// A disk of these bytes, all of them durable.
    pub fn of(alloc: Global, bytes: Vec<u8>) -> Result<MemoryDisk, AllocError>
        ensures { IfOk result (λ disk. disk ≡ record { first = bytes.items; calls = []; failures = 0 }) }
    {
        Ok(MemoryDisk {
            alloc,
            first: Vec::from_slice(alloc, bytes.as_slice())?,
            calls: Vec::new(alloc),
            bytes,
            failures: Failures::none(),
        })
    }

    /// The bytes, as reads give them.
    pub fn bytes(&self) -> &[u8]
        ensures { result.now ≡ (state_of self.now).bytes }
    {
        self.bytes.as_slice()
    }

    /// The bytes that it began with.
    pub fn first(&self) -> &[u8]
        ensures { result.now ≡ self.now.first }
    {
        self.first.as_slice()
    }

    /// The calls since then that changed something, in order.
    pub fn calls(&self) -> &[DiskCall]
        ensures { result.now ≡ self.now.calls }
    {
        self.calls.as_slice()
    }

    /// Fails a call, and counts it.
    pub(crate) fn fail(&mut self)
        ensures { self.new ≡ with_failure self.old }
    {
        self.failures.add();
    }

    /// Writes, or does nothing if memory runs out.
    pub(crate) fn put(&mut self, at: u64, put: &[u8]) -> Result<(), AllocError>
        requires { at ≤ length (state_of self.old).bytes }
        ensures ok { OnOk result (self.new ≡ with_call self.old (Write at put.now)) }
        ensures bound { OnOk result (at + length put.now < 2 ^ 63) }
        ensures err { OnErr result (self.new ≡ self.old) }
    {
        let copy = Written::copy_of(self.alloc, put)?;
        self.calls.reserve(1)?;
        overwrite(&mut self.bytes, at as usize, put)?;
        self.calls.push(DiskCall::Write { at, put: copy })?;
        Ok(())
    }

    /// Begins a write that leaves the bytes as they are, or does nothing if memory runs out.
    pub(crate) fn tear(&mut self, at: u64, put: &[u8]) -> Result<(), AllocError>
        requires { at ≤ length (state_of self.old).bytes }
        ensures ok { OnOk result (self.new ≡ with_call self.old (Torn at (at + length put.now))) }
        ensures err { OnErr result (self.new ≡ self.old) }
    {
        prove!(at <= self.bytes.len() as u64);
        let stop = at + put.len() as u64;
        self.note(DiskCall::Torn { at, stop })
    }

    /// Records a call that leaves the bytes as they are, or does nothing if memory runs out.
    fn note(&mut self, call: DiskCall) -> Result<(), AllocError>
        requires { (state_of (with_call self.old call)).bytes ≡ (state_of self.old).bytes }
        ensures ok { OnOk result (self.new ≡ with_call self.old call) }
        ensures err { OnErr result (self.new ≡ self.old) }
    {
        self.calls.push(call)?;
        Ok(())
    }
}

impl Disk for MemoryDisk {
    ghost use Rattle.std.specs.Prelude.{Some};

    ghost log = { λ d. record { state = Some (state_of d); failed = d.failures } };

    fn length(&mut self) -> Result<u64, DiskFault>
        ensures reported { IfOk result (λ n. n ≡ length (state_of self.old).bytes) }
        ensures bound { IfOk result (λ n. n < 2 ^ 63) }
        ensures never { IsOk result }
        ensures same { self.new ≡ self.old }
    {
        Ok(self.bytes.len() as u64)
    }

    fn read(&mut self, at: u64, into: &mut [u8]) -> Result<(), DiskFault>
        requires { at + length into.old ≤ length (state_of self.old).bytes }
        ensures image { IsImage (state_of self.old).stable (state_of self.old).bytes }
        ensures reported { into.new ≡ slice_range (state_of self.old).bytes at (at + length into.old) }
        ensures never { IsOk result }
        ensures same { self.new ≡ self.old }
    {
        let start = at as usize;
        prove!(start <= self.bytes.len());
        let stop = start + into.len();
        into.copy_from_slice(&self.bytes[start..stop]);
        Ok(())
    }

    fn write_at(&mut self, at: u64, put: &[u8]) -> Result<(), DiskFault>
        requires { at ≤ length (state_of self.old).bytes }
        ensures log { Logs result (Write at put.now) self.old self.new }
        ensures written { WritesDisk result at put.now (state_of self.old) (state_of self.new) }
        ensures bound { OnOk result (at + length put.now < 2 ^ 63) }
    {
        match self.put(at, put) {
            Ok(()) => Ok(()),
            Err(_) => {
                self.fail();
                Err(DiskFault)
            }
        }
    }

    fn sync(&mut self) -> Result<(), DiskFault>
        ensures log { Logs result Sync self.old self.new }
        ensures durable { Syncs result (state_of self.old) (state_of self.new) }
    {
        match self.note(DiskCall::Sync) {
            Ok(()) => Ok(()),
            Err(_) => {
                self.fail();
                Err(DiskFault)
            }
        }
    }

    fn failures(&self) -> u64 {
        self.failures.count()
    }
}

/// Overwrites bytes from `at` on, or leaves them if memory runs out.
fn overwrite(bytes: &mut Vec<u8>, at: usize, put: &[u8]) -> Result<(), AllocError>
    requires { at ≤ length bytes.old.items }
    ensures ok { OnOk result (bytes.new.items ≡ overwritten bytes.old.items at put.now) }
    ensures bound { OnOk result (at + length put.now < 2 ^ 63) }
    ensures err { OnErr result (bytes.new.items ≡ bytes.old.items) }
{
    let end = at + put.len();
    bytes.resize(bytes.len().max(end), 0)?;
    bytes[at..end].copy_from_slice(put);
    prove!(end <= bytes.len());
    Ok(())
}
