ghost use Rattle.std.specs.Prelude.{◌≡◌, ◌+◌, ◌-◌, ◌≤◌, ◌<◌, ◌^◌, [], false, length, slice_range, IfOk, OnOk};
ghost use Rattle.cut_disks.specs.State.{IsImage, WritesDisk, Syncs};
ghost use Rattle.cut_disks.specs.Memory.{state_of};
ghost use Rattle.cut_disks.specs.inside.Faulty.{Counts, was_due, torn_call, Looks, FailsWith, FaultyWrites};
ghost use Rattle.cut_disks.specs.inside.Faulty.{FaultySyncs};
ghost use Rattle.cut_disks.specs.declared.call.DiskCall.TheVariants.{Sync};

use crate::{Disk, DiskFault, MemoryDisk};
use std::alloc::{AllocError, Global};
use std::cell::Cell;
use std::marker::Model;

/// What is left by a write that fails after it was begun.
#[derive(Clone, Copy, Debug, PartialEq, Eq)]
pub enum Tear {
    /// Its places are as before.
    Nothing,
    /// All of it is written.
    Everything,
}

/// A disk in memory that fails once, at a chosen call, to try out what a failure leaves.
///
/// Once it is armed, its calls of `length`, `read`, `write_at` and `sync` are counted from 1, and call number `fail_at`
/// fails; with 0 none does. Otherwise it is like any other disk in memory.
#[derive(Drop)]
pub struct FaultyDisk {
    memory: MemoryDisk,
    armed: Cell<bool>,
    counting: bool,
    fail_in: u64,
    tear: Tear,
}

impl Model for FaultyDisk {
    ghost use Rattle.cut_disks.specs.Faulty.{FaultyDiskValue};

    ghost Value = { FaultyDiskValue };

    ghost view = { λ d. record { memory = d.memory; counting = d.counting; fail_in = d.fail_in; tear = d.tear } };
}

impl FaultyDisk {
    /// A disk of these bytes, not armed.
    pub fn of(
        alloc: Global,
        bytes: Vec<u8>,
        fail_at: u64,
        tear: Tear,
    ) -> Result<FaultyDisk, AllocError>
        ensures { IfOk result (λ disk. disk ≡ record {
          memory = record { first = bytes.items; calls = []; failures = 0 };
          counting = false;
          fail_in = fail_at;
          tear = tear;
        }) }
    {
        Ok(FaultyDisk {
            memory: MemoryDisk::of(alloc, bytes)?,
            armed: Cell::new(false),
            counting: false,
            fail_in: fail_at,
            tear,
        })
    }

    /// Arms the disk: the next call is number 1. No contract sees whether a disk is armed before its next
    /// call.
    pub fn arm(&self) {
        self.armed.set(true);
    }

    /// The disk in memory, with its bytes and its calls.
    pub fn memory(&self) -> &MemoryDisk
        ensures { result.now ≡ self.now.memory }
    {
        &self.memory
    }

    /// Counts a call, and returns whether it is the failing one.
    fn is_due(&mut self) -> bool
        ensures counts { Counts self.old self.new }
        ensures due { result ≡ was_due self.old self.new }
        ensures memory { self.new.memory ≡ self.old.memory }
    {
        if !self.counting && !self.armed.get() {
            return false;
        }
        self.counting = true;
        let due = self.fail_in == 1;
        self.fail_in = self.fail_in.saturating_sub(1);
        due
    }

    /// Fails a write, and leaves of it what the disk was made to leave, or nothing if memory runs out.
    fn fail_write(&mut self, at: u64, put: &[u8])
        requires { at ≤ length (state_of self.old.memory).bytes }
        ensures memory { FailsWith (torn_call self.old.tear at put.now) self.old.memory self.new.memory }
        ensures rest { self.new ≡ record self.old { memory = self.new.memory } }
    {
        let _ = match self.tear {
            Tear::Nothing => self.memory.tear(at, put),
            Tear::Everything => self.memory.put(at, put),
        };
        self.memory.fail();
    }
}

impl Disk for FaultyDisk {
    ghost use Rattle.std.specs.Prelude.{Some};

    ghost log = { λ d. record { state = Some (state_of d.memory); failed = d.memory.failures } };

    fn length(&mut self) -> Result<u64, DiskFault>
        ensures bound { IfOk result (λ n. n < 2 ^ 63) }
        ensures reported { IfOk result (λ n. n ≡ length (state_of self.old.memory).bytes) }
        ensures counts { Counts self.old self.new }
        ensures due { Looks result (was_due self.old self.new) self.old.memory self.new.memory }
    {
        if self.is_due() {
            self.memory.fail();
            return Err(DiskFault);
        }
        self.memory.length()
    }

    fn read(&mut self, at: u64, into: &mut [u8]) -> Result<(), DiskFault>
        requires { at + length into.old ≤ length (state_of self.old.memory).bytes }
        ensures image { IsImage (state_of self.old.memory).stable (state_of self.old.memory).bytes }
        ensures reported { OnOk result
            (into.new ≡ slice_range (state_of self.old.memory).bytes at (at + length into.old)) }
        ensures counts { Counts self.old self.new }
        ensures due { Looks result (was_due self.old self.new) self.old.memory self.new.memory }
    {
        if self.is_due() {
            self.memory.fail();
            return Err(DiskFault);
        }
        self.memory.read(at, into)
    }

    fn write_at(&mut self, at: u64, put: &[u8]) -> Result<(), DiskFault>
        requires { at ≤ length (state_of self.old.memory).bytes }
        ensures written { WritesDisk result at put.now (state_of self.old.memory) (state_of self.new.memory) }
        ensures bound { OnOk result (at + length put.now < 2 ^ 63) }
        ensures counts { Counts self.old self.new }
        ensures due { FaultyWrites result self.old.tear (was_due self.old self.new) at put.now
            self.old.memory self.new.memory }
    {
        if self.is_due() {
            self.fail_write(at, put);
            return Err(DiskFault);
        }
        self.memory.write_at(at, put)
    }

    fn sync(&mut self) -> Result<(), DiskFault>
        ensures durable { Syncs result (state_of self.old.memory) (state_of self.new.memory) }
        ensures counts { Counts self.old self.new }
        ensures due { FaultySyncs result (was_due self.old self.new) Sync self.old.memory self.new.memory }
    {
        if self.is_due() {
            self.memory.fail();
            return Err(DiskFault);
        }
        self.memory.sync()
    }

    fn failures(&self) -> u64 {
        self.memory.failures()
    }
}
