ghost use Rattle.std.specs.Prelude.{◌≤◌, IfSome};

use crate::counts::Counts;
use cut_outcome::{Gate, Piece};
use std::sync::{Condvar, Mutex, Wait};
use std::time::{Clock, Duration};

/// The progress of a study, as the gate that its workers pass. One thread prints it.
#[derive(Drop)]
pub struct Progress {
    counts: Mutex<Counts>,
    changed: Condvar,
}

impl Progress {
    /// The progress of a study that has not begun.
    pub fn new() -> Progress {
        Progress {
            counts: Mutex::new(Counts::none()),
            changed: Condvar::new(),
        }
    }

    /// Records that the study has ended, or that none begins.
    pub(crate) fn end<R: Wait>(&self, rt: &R) {
        self.counts.lock(rt).end();
        self.changed.notify_all();
    }

    /// Waits until the study begins, or none is to begin: how far it has come then, if it has begun.
    pub(crate) fn wait_for_begin<R: Wait>(&self, rt: &R) -> Option<Counts>
        ensures { IfSome result (λ counts. 1 ≤ counts.all) }
    {
        let counts = self.changed.wait_while(rt, self.counts.lock(rt), |counts| {
            !counts.has_begun() && !counts.has_ended()
        });
        counts.has_begun().then_some(*counts)
    }

    /// Waits for a second, or until the study ends: how far it has come then.
    pub(crate) fn wait_a_second<R: Wait + Clock>(&self, rt: &R) -> Counts {
        let counts = self.counts.lock(rt);
        let second = Duration::from_secs(1);
        let (counts, _) = self
            .changed
            .wait_timeout_while(rt, counts, second, |counts| !counts.has_ended());
        *counts
    }
}

impl Gate for Progress {
    fn opened<R: Wait>(&self, rt: &R, held: u64, all: u64) {
        self.counts.lock(rt).begin(held, all);
        self.changed.notify_all();
    }

    fn accepted<R: Wait>(&self, rt: &R, piece: Piece) {
        self.counts.lock(rt).add(piece.count);
    }
}
