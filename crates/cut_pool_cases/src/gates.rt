use cut_outcome::{Gate, Piece};
use std::sync::Wait;
use std::sync::atomic::{AtomicU64, Ordering};
use std::time::{Clock, Duration};

/// A gate in which a call waits until this many have begun, for 10,000 turns of a millisecond at most.
#[derive(Drop)]
pub struct MeetingGate<'a, C> {
    clock: &'a C,
    wanted: u64,
    begun: AtomicU64,
    left_alone: AtomicU64,
}

impl<'a, C> MeetingGate<'a, C> {
    /// One in which this many calls meet.
    pub fn new(clock: &'a C, wanted: u64) -> MeetingGate<'a, C> {
        MeetingGate {
            clock,
            wanted,
            begun: AtomicU64::new(0),
            left_alone: AtomicU64::new(0),
        }
    }

    /// How many calls came, and how many were left alone.
    pub fn counts(&self) -> (u64, u64) {
        let begun = self.begun.load(Ordering::SeqCst);
        (begun, self.left_alone.load(Ordering::SeqCst))
    }
}

impl<C: Clock> Gate for MeetingGate<'_, C> {
    fn pass<R: Wait>(&self, _rt: &R, _piece: Piece) {
        self.begun.fetch_add(1, Ordering::SeqCst);
        for _ in 0..10_000 {
            if self.begun.load(Ordering::SeqCst) >= self.wanted {
                return;
            }
            self.clock.sleep(Duration::from_millis(1));
        }
        self.left_alone.fetch_add(1, Ordering::SeqCst);
    }
}

/// What a gate was called with: how often a study was opened, how many trials were held then, and of how many; how many
/// pieces passed, and how many trials they have; the same of those that were accepted; and how many calls came out of
/// their turn.
#[derive(Clone, Copy, Debug, PartialEq, Eq)]
pub struct Calls {
    pub opened: u64,
    pub held: u64,
    pub all: u64,
    pub passed: (u64, u64),
    pub accepted: (u64, u64),
    pub misplaced: u64,
}

impl Calls {
    /// Whether a study was opened once, each call came in its turn, and each of its trials is held.
    pub fn has_all(&self) -> bool {
        let held = self.held.saturating_add(self.accepted.1);
        self.opened == 1 && self.misplaced == 0 && held == self.all
    }
}

/// A gate that notes its calls. A study is opened once, before any piece passes, and no more pieces are accepted than
/// passed before.
#[derive(Drop)]
pub struct NotingGate {
    opened: AtomicU64,
    held: AtomicU64,
    all: AtomicU64,
    passed: AtomicU64,
    passed_trials: AtomicU64,
    accepted: AtomicU64,
    accepted_trials: AtomicU64,
    misplaced: AtomicU64,
}

impl NotingGate {
    /// One that was not called.
    pub fn new() -> NotingGate {
        NotingGate {
            opened: AtomicU64::new(0),
            held: AtomicU64::new(0),
            all: AtomicU64::new(0),
            passed: AtomicU64::new(0),
            passed_trials: AtomicU64::new(0),
            accepted: AtomicU64::new(0),
            accepted_trials: AtomicU64::new(0),
            misplaced: AtomicU64::new(0),
        }
    }

    /// The calls so far.
    pub fn calls(&self) -> Calls {
        Calls {
            opened: self.opened.load(Ordering::SeqCst),
            held: self.held.load(Ordering::SeqCst),
            all: self.all.load(Ordering::SeqCst),
            passed: (
                self.passed.load(Ordering::SeqCst),
                self.passed_trials.load(Ordering::SeqCst),
            ),
            accepted: (
                self.accepted.load(Ordering::SeqCst),
                self.accepted_trials.load(Ordering::SeqCst),
            ),
            misplaced: self.misplaced.load(Ordering::SeqCst),
        }
    }

    /// Notes whether a call comes in its turn.
    fn note_turn(&self, is_in_turn: bool) {
        if !is_in_turn {
            self.misplaced.fetch_add(1, Ordering::SeqCst);
        }
    }
}

impl Gate for NotingGate {
    fn opened<R: Wait>(&self, _rt: &R, held: u64, all: u64) {
        let before = self.opened.fetch_add(1, Ordering::SeqCst);
        self.note_turn(before == 0 && self.passed.load(Ordering::SeqCst) == 0);
        self.held.store(held, Ordering::SeqCst);
        self.all.store(all, Ordering::SeqCst);
    }

    fn pass<R: Wait>(&self, _rt: &R, piece: Piece) {
        self.note_turn(self.opened.load(Ordering::SeqCst) == 1);
        self.passed.fetch_add(1, Ordering::SeqCst);
        let trials = u64::from(piece.count);
        self.passed_trials.fetch_add(trials, Ordering::SeqCst);
    }

    fn accepted<R: Wait>(&self, _rt: &R, piece: Piece) {
        let before = self.accepted.fetch_add(1, Ordering::SeqCst);
        self.note_turn(before < self.passed.load(Ordering::SeqCst));
        let trials = u64::from(piece.count);
        self.accepted_trials.fetch_add(trials, Ordering::SeqCst);
    }
}

/// A gate in which each piece waits a hundredth of a second, and which counts the pieces that are accepted.
#[derive(Drop)]
pub struct SlowGate<'a, C> {
    clock: &'a C,
    accepted: AtomicU64,
}

impl<'a, C> SlowGate<'a, C> {
    /// One that no piece has passed.
    pub fn new(clock: &'a C) -> SlowGate<'a, C> {
        SlowGate {
            clock,
            accepted: AtomicU64::new(0),
        }
    }

    /// How many pieces were accepted.
    pub fn accepted(&self) -> u64 {
        self.accepted.load(Ordering::SeqCst)
    }
}

impl<C: Clock> Gate for SlowGate<'_, C> {
    fn pass<R: Wait>(&self, _rt: &R, _piece: Piece) {
        self.clock.sleep(Duration::from_millis(10));
    }

    fn accepted<R: Wait>(&self, _rt: &R, _piece: Piece) {
        self.accepted.fetch_add(1, Ordering::SeqCst);
    }
}
