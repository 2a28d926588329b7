ghost use Rattle.std.specs.Prelude.{◌≡◌, ◌+◌, ◌≤◌, min, max, nat_lt, true, false};

use crate::ProgressLine;

/// How far a study has come. No more trials are held than it has, and no fewer than at first.
#[derive(Clone, Copy)]
pub(crate) struct Counts {
    /// How many trials were held when it was opened.
    first: u64,
    /// How many are held.
    held: u64,
    /// How many it has; none before it is opened.
    all: u64,
    has_ended: bool,
    ghost risen: { first ≤ held },
    ghost within: { held ≤ all },
}

impl Counts {
    ghost use Rattle.cut_progress.specs.inside.Counts.{line_of, seconds_left};

    /// The counts of a study that has not begun.
    pub(crate) fn none() -> Counts
        ensures { result.all ≡ 0 }
    {
        Counts {
            first: 0,
            held: 0,
            all: 0,
            has_ended: false,
        }
    }

    /// Begins with a study that has `all` trials, of which `held` are held.
    pub(crate) fn begin(&mut self, held: u64, all: u64)
        ensures first { self.new.first ≡ min held all }
        ensures held { self.new.held ≡ min held all }
        ensures all { self.new.all ≡ all }
        ensures ended { self.new.has_ended ≡ self.old.has_ended }
    {
        let held = held.min(all);
        *self = Counts {
            first: held,
            held,
            all,
            has_ended: self.has_ended,
        };
    }

    /// Adds some trials, which are held from now on.
    pub(crate) fn add(&mut self, trials: u32)
        ensures first { self.new.first ≡ self.old.first }
        ensures held { self.new.held ≡ min (self.old.held + trials) self.old.all }
        ensures all { self.new.all ≡ self.old.all }
        ensures ended { self.new.has_ended ≡ self.old.has_ended }
    {
        let held = self.held.saturating_add(u64::from(trials)).min(self.all);
        *self = Counts {
            first: self.first,
            held,
            all: self.all,
            has_ended: self.has_ended,
        };
    }

    /// Records that the study has ended, or that none begins.
    pub(crate) fn end(&mut self)
        ensures first { self.new.first ≡ self.old.first }
        ensures held { self.new.held ≡ self.old.held }
        ensures all { self.new.all ≡ self.old.all }
        ensures ended { self.new.has_ended ≡ true }
    {
        self.has_ended = true;
    }

    /// Whether the study was opened: it has trials.
    pub(crate) fn has_begun(&self) -> bool
        ensures { result ≡ nat_lt 0 self.now.all }
    {
        self.all > 0
    }

    /// Whether the study has ended.
    pub(crate) fn has_ended(&self) -> bool
        ensures { result ≡ self.now.has_ended }
    {
        self.has_ended
    }

    /// The same study once it has come as far as these counts say: of its trials no fewer are held than before.
    pub(crate) fn then(self, later: Counts) -> Counts
        ensures first { result.first ≡ self.first }
        ensures held { result.held ≡ max self.held (min later.held self.all) }
        ensures all { result.all ≡ self.all }
        ensures ended { result.has_ended ≡ later.has_ended }
    {
        Counts {
            first: self.first,
            held: later.held.min(self.all).max(self.held),
            all: self.all,
            has_ended: later.has_ended,
        }
    }

    /// The line of progress after this many seconds.
    pub(crate) fn line(&self, seconds: u64) -> ProgressLine
        ensures { result ≡ line_of self.now seconds }
    {
        ProgressLine {
            held: self.held,
            all: self.all,
            seconds,
            left: self.seconds_left(seconds),
        }
    }

    /// For how many seconds the study is still to be run, if a trial takes as long as one has taken so far. Nothing is
    /// estimated before a trial was run, nor at the end.
    fn seconds_left(&self, seconds: u64) -> Option<u64>
        ensures { result ≡ seconds_left self.now seconds }
    {
        let done = self.held - self.first;
        if done == 0 || self.has_ended {
            return None;
        }
        Some(seconds.saturating_mul(self.all - self.held) / done)
    }
}
