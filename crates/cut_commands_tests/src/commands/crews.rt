//! Runs whose wire holds up the thread that writes: what other workers do meanwhile shows on the disk.

use super::{LINE, PLAN, is_table, work_of};
use cut_commands::run_io;
use cut_disks::{Disk, DiskFault, MemoryDisk};
use cut_wires::{MemoryWire, Wire, WireFault};
use std::alloc::Global;
use std::sync::Wait;
use std::sync::atomic::{AtomicU64, Ordering};
use std::test::Fail;
use std::thread::Threads;
use std::time::{Clock, Duration};

/// A disk that counts the gates that are opened or closed on it: its writes of a single byte.
#[derive(Drop)]
struct Gated<'a, D: Disk> {
    disk: D,
    gates: &'a AtomicU64,
}

impl<D: Disk> Disk for Gated<'_, D> {
    ghost log = { λ d. D.log d.disk };

    fn length(&mut self) -> Result<u64, DiskFault> {
        self.disk.length()
    }

    fn read(&mut self, at: u64, into: &mut [u8]) -> Result<(), DiskFault> {
        self.disk.read(at, into)
    }

    fn write_at(&mut self, at: u64, put: &[u8]) -> Result<(), DiskFault> {
        if put.len() == 1 {
            self.gates.fetch_add(1, Ordering::SeqCst);
        }
        self.disk.write_at(at, put)
    }

    fn sync(&mut self) -> Result<(), DiskFault> {
        self.disk.sync()
    }

    fn failures(&self) -> u64 {
        self.disk.failures()
    }
}

/// A wire whose writes wait until a number of gates are moved on the disk, for a number of turns of a millisecond at
/// most.
#[derive(Drop)]
struct Held<'a, W: Wire, C> {
    wire: W,
    clock: &'a C,
    gates: &'a AtomicU64,
    wanted: u64,
    turns: u32,
    seen: Option<u64>,
}

/// Waits until there are `wanted`, for `turns` turns of a millisecond at most: how many there are then.
fn wait_for<C: Clock>(clock: &C, gates: &AtomicU64, wanted: u64, turns: u32) -> u64 {
    for _ in 0..turns {
        let moved = gates.load(Ordering::SeqCst);
        if moved >= wanted {
            return moved;
        }
        clock.sleep(Duration::from_millis(1));
    }
    gates.load(Ordering::SeqCst)
}

impl<W: Wire, C: Clock> Wire for Held<'_, W, C> {
    ghost log = { λ w. W.log w.wire };

    fn read(&mut self, buffer: &mut [u8]) -> Result<usize, WireFault> {
        self.wire.read(buffer)
    }

    fn write(&mut self, bytes: &[u8]) -> Result<usize, WireFault> {
        if self.seen.is_none() {
            self.seen = Some(wait_for(self.clock, self.gates, self.wanted, self.turns));
        }
        self.wire.write(bytes)
    }

    fn failures(&self) -> u64 {
        self.wire.failures()
    }
}

/// What is asked of a run, how many gates are waited for, and how long; and how many have been moved then.
struct Order {
    size: u32,
    workers: u32,
    wanted: u64,
    turns: u32,
    seen: u64,
}

/// Whether a run of the plan writes its table whose first write waits, and as many gates as it says have been moved
/// when it is made.
fn is_held_up<T: Threads + Wait + Sync, C: Clock>(
    rt: &T,
    alloc: Global,
    clock: &C,
    order: &Order,
) -> Result<bool, Fail> {
    let gates = AtomicU64::new(0);
    let disk = Gated {
        disk: MemoryDisk::of(alloc, Vec::new(alloc))?,
        gates: &gates,
    };
    let mut wire = Held {
        wire: MemoryWire::new(alloc, Vec::from_slice(alloc, PLAN.as_bytes())?, 4096),
        clock,
        gates: &gates,
        wanted: order.wanted,
        turns: order.turns,
        seen: None,
    };
    let work = work_of(order.size, order.workers);
    let ended = run_io(rt, alloc, &mut wire, work, Some(disk));
    let is_written = ended.is_ok() && is_table(wire.wire.taken(), LINE);
    Ok(is_written && wire.seen == Some(order.seen))
}

/// One worker writes first and works then; two trials have two slips by pieces of one, and one by pieces of two.
const ORDERS: &[Order] = &[
    Order {
        size: 1,
        workers: 1,
        wanted: 4,
        turns: 50,
        seen: 2,
    },
    Order {
        size: 1,
        workers: 2,
        wanted: 4,
        turns: 10_000,
        seen: 4,
    },
    Order {
        size: 1,
        workers: 64,
        wanted: 4,
        turns: 10_000,
        seen: 4,
    },
    Order {
        size: 2,
        workers: 2,
        wanted: 3,
        turns: 10_000,
        seen: 3,
    },
    Order {
        size: 2,
        workers: 1,
        wanted: 3,
        turns: 50,
        seen: 2,
    },
];

/// Two gates are moved if a study is made, the first one closed and then opened, and one for each slip.
#[test]
fn other_workers_work_while_a_write_waits(rt: HostRuntime) -> Result<(), Fail> {
    for (number, order) in ORDERS.iter().enumerate() {
        assert!(rt; is_held_up(&rt, rt.alloc(), &rt, order)?, "{number}");
    }
    Ok(())
}
