//! What no contract says: when lines are printed, and which numbers they have.

use crate::report::print_lines;
use crate::{Progress, ProgressLine, report_while};
use cut_outcome::{Gate, Piece};
use cut_wires::{FaultyWire, MemoryWire};
use std::alloc::Global;
use std::io;
use std::sync::Wait;
use std::sync::atomic::{AtomicU64, Ordering};
use std::time::{Clock, Duration};

/// A handle whose clock is read a number of times, each a second later than the one before, and then fails.
#[derive(Drop)]
struct Hurried<'a, R> {
    rt: &'a R,
    readings: AtomicU64,
    most: u64,
}

impl<R: Wait> Wait for Hurried<'_, R> {}

impl<R> Clock for Hurried<'_, R> {
    fn monotonic(&self) -> io::Result<Duration> {
        let reading = self.readings.fetch_add(1, Ordering::SeqCst);
        if reading >= self.most {
            return Err(io::Error::from(io::ErrorKind::Other));
        }
        Ok(Duration::from_secs(reading))
    }

    fn since_1970(&self) -> io::Result<Duration> {
        self.monotonic()
    }
}

/// Some trials that were taken.
fn piece(count: u32) -> Piece {
    Piece { first: 0, count }
}

/// What is printed, over a wire with this much room, of a study that never ends: it has ten trials, of which two were
/// held when it was opened and two more were taken. The clock is read `most` times.
fn printed<R: Wait>(rt: &R, alloc: Global, room: usize, most: u64) -> FaultyWire {
    let hurried = Hurried {
        rt,
        readings: AtomicU64::new(0),
        most,
    };
    let progress = Progress::new();
    progress.opened(rt, 2, 10);
    progress.accepted(rt, piece(2));
    let mut wire = FaultyWire::new(alloc, Vec::new(alloc), 100, room, 0);
    print_lines(&hurried, &progress, &mut wire);
    wire
}

/// Whether some bytes are a text with this in it.
fn has(bytes: &[u8], part: &str) -> bool {
    match std::str::from_utf8(bytes) {
        Ok(text) => text.contains(part),
        Err(_) => false,
    }
}

#[test]
fn a_line_says_how_far_a_study_is(rt: HostRuntime) {
    let mut line = ProgressLine {
        held: 320,
        all: 1280,
        seconds: 4,
        left: Some(12),
    };
    assert!(rt; line.text().as_str() == "cutlab: 320 of 1280 trials, 4 s, about 12 s left\n");
    line.left = None;
    assert!(rt; line.text().as_str() == "cutlab: 320 of 1280 trials, 4 s\n");
}

// A second after the beginning, and so on. Each line takes three readings of the clock.
#[test]
fn lines_come_until_a_write_fails(rt: HostRuntime) {
    let lines =
        "cutlab: 4 of 10 trials, 3 s, about 9 s left\ncutlab: 4 of 10 trials, 6 s, about 18 s left\ncutl";
    let wire = printed(&rt, rt.alloc(), lines.len(), 100);
    assert!(rt; wire.taken() == lines.as_bytes());
}

#[test]
fn no_line_comes_once_the_clock_fails(rt: HostRuntime) {
    assert!(rt; printed(&rt, rt.alloc(), 1000, 0).taken().is_empty());
    let wire = printed(&rt, rt.alloc(), 1000, 4);
    assert!(rt; wire.taken() == b"cutlab: 4 of 10 trials, 3 s, about 9 s left\n".as_slice());
}

#[test]
fn the_last_line_comes_at_the_end(rt: HostRuntime) {
    let progress = Progress::new();
    let mut wire = MemoryWire::new(rt.alloc(), Vec::new(rt.alloc()), 4096);
    let result = report_while(
        &rt,
        &progress,
        &mut wire,
        &mut || {
            progress.opened(&rt, 0, 3);
            progress.accepted(&rt, piece(1));
            progress.accepted(&rt, piece(2));
            7
        },
    );
    assert!(rt; result == 7 && has(wire.taken(), "cutlab: 3 of 3 trials, "));
    assert!(rt; wire.taken().ends_with(b" s\n"));
}

#[test]
fn work_without_a_study_has_no_line(rt: HostRuntime) {
    let progress = Progress::new();
    let mut wire = MemoryWire::new(rt.alloc(), Vec::new(rt.alloc()), 4096);
    let result = report_while(&rt, &progress, &mut wire, &mut || 7);
    assert!(rt; result == 7 && wire.taken().is_empty());
}
