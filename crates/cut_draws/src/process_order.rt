ghost use Rattle.std.specs.Prelude.{◌≡◌, [], ◌<◌, length, map, slice_get, IfOk, OnOk, OnErr, Some, IsTrue};
ghost use Rattle.std.specs.List.{range_with_len};
ghost use Rattle.cut_draws.specs.Source.{key_at};
ghost use Rattle.cut_draws.specs.ProcessOrder.{process_place, IsProcessOrder};
ghost use Rattle.cut_draws.specs.inside.PackedProcesses.{process_in, packed_process, AreProcessesRising};

use crate::Draws;
use std::alloc::{AllocError, Global};
use std::marker::Model;

/// How many numbers the bits below those of a key distinguish.
const PROCESSES: u64 = 65_536;

/// The processes of a trial in ascending order of key and number, by which roles are assigned. Its memory is used again
/// for the next trial. Contracts see a list of processes.
#[derive(Debug, Drop)]
pub struct ProcessOrder {
    /// Each process in the low 16 bits of a number, below the high 48 bits of its key. Numbers of 8 bytes are sorted
    /// fastest.
    packed: Vec<u64>,
    /// Working memory to sort processes whose packed keys tie.
    keyed: Vec<(u64, u16)>,
}

impl Model for ProcessOrder {
    ghost use Rattle.std.specs.Prelude.{ℕ, List, map};

    ghost Value = { List ℕ };

    ghost use Rattle.cut_draws.specs.inside.PackedProcesses.{process_in};

    ghost view = { λ o. map process_in o.packed.items };
}

impl ProcessOrder {
    /// An order of no process.
    pub fn new(alloc: Global) -> ProcessOrder
        ensures { result ≡ [] }
    {
        ProcessOrder {
            packed: Vec::new(alloc),
            keyed: Vec::new(alloc),
        }
    }

    /// How many processes there are.
    pub fn len(&self) -> usize
        ensures { result ≡ length self.now }
    {
        self.packed.len()
    }

    /// The process at a place, from 0.
    pub fn get(&self, i: usize) -> u16
        requires { i < length self.now }
        ensures { slice_get self.now i ≡ Some result }
    {
        process_in(self.packed[i])
    }

    /// The processes as a `Vec`.
    fn to_vec(&self, alloc: Global) -> Result<Vec<u16>, AllocError>
        ensures { IfOk result (λ v. v.items ≡ self.now) }
    {
        self.packed
            .iter()
            .map(|word| process_in(*word))
            .collect(alloc)
    }
}

impl Draws {
    /// The processes 0 to n - 1 in ascending order of key and number (this project's profile).
    pub fn process_order(&mut self, alloc: Global, n: u16) -> Result<Vec<u16>, AllocError>
        ensures order { IfOk result (λ order. IsProcessOrder self.old n order.items) }
        ensures same { self.new ≡ self.old }
    {
        let mut order = ProcessOrder::new(alloc);
        self.order_processes(&mut order, n)?;
        order.to_vec(alloc)
    }

    /// Puts the processes 0 to n - 1 into an order that may have been used before, as `process_order` gives them, in
    /// the memory that the order has. Fails only if memory runs out, and the order is empty then.
    pub fn order_processes(&mut self, order: &mut ProcessOrder, n: u16) -> Result<(), AllocError>
        ensures order { OnOk result (IsProcessOrder self.old n order.new) }
        ensures err { OnErr result (order.new ≡ []) }
        ensures same { self.new ≡ self.old }
    {
        let filled = self.fill_processes(order, n);
        if filled.is_err() {
            order.packed.clear();
        }
        filled
    }

    /// Sorts the first processes into `order`. After an error its content is unspecified.
    fn fill_processes(&mut self, order: &mut ProcessOrder, n: u16) -> Result<(), AllocError>
        ensures order { OnOk result (IsProcessOrder self.old n order.new) }
        ensures same { self.new ≡ self.old }
    {
        self.pack_processes(&mut order.packed, n)?;
        order.packed.sort_unstable();
        if processes_rise(order.packed.as_slice()) {
            return Ok(());
        }
        self.process_keys(&mut order.keyed, n)?;
        order.keyed.sort_unstable();
        list_processes(&mut order.packed, order.keyed.as_slice())?;
        Ok(())
    }

    /// The first processes under their keys, in place of what the list held.
    fn pack_processes(&mut self, packed: &mut Vec<u64>, n: u16) -> Result<(), AllocError>
        ensures keys { OnOk result
            (packed.new.items ≡ map (λ p. packed_process (key_at self.old (process_place p)) p) (range_with_len 0 n)) }
        ensures same { self.new ≡ self.old }
    {
        packed.clear();
        packed.reserve(usize::from(n))?;
        for process in 0..n {
            let key = self.process_key(process);
            packed.push(key / PROCESSES * PROCESSES + u64::from(process))?;
        }
        Ok(())
    }

    /// The key of a process, by which it is ordered.
    #[inline]
    fn process_key(&mut self, process: u16) -> u64
        ensures value { result ≡ key_at self.old (process_place process) }
        ensures same { self.new ≡ self.old }
    {
        self.key(2 * u64::from(process))
    }

    /// The first processes with their keys before them, in place of what the list held.
    fn process_keys(&mut self, keyed: &mut Vec<(u64, u16)>, n: u16) -> Result<(), AllocError>
        ensures keys { OnOk result
            (keyed.new.items ≡ map (λ p. (key_at self.old (process_place p), p)) (range_with_len 0 n)) }
        ensures same { self.new ≡ self.old }
    {
        keyed.clear();
        keyed.reserve(usize::from(n))?;
        for process in 0..n {
            let key = self.process_key(process);
            keyed.push((key, process))?;
        }
        Ok(())
    }
}

/// The process that a number holds.
#[inline]
fn process_in(word: u64) -> u16
    ensures { result ≡ process_in word }
{
    (word % PROCESSES) as u16
}

/// Whether the packed part of each key is less than the next. If it isn't, the whole keys decide the order.
fn processes_rise(packed: &[u64]) -> bool
    ensures { IsTrue result → AreProcessesRising packed.now }
{
    packed.is_sorted_by(|x, y| x / PROCESSES < y / PROCESSES)
}

/// The processes alone, in place of what the list held.
fn list_processes(packed: &mut Vec<u64>, keyed: &[(u64, u16)]) -> Result<(), AllocError>
    ensures { OnOk result (map process_in packed.new.items ≡ map (λ x. x.1) keyed.now) }
{
    packed.clear();
    for (_, process) in keyed {
        packed.push(u64::from(*process))?;
    }
    Ok(())
}
