ghost use Rattle.std.specs.Prelude.{◌≡◌, Some, None, option_copied};
ghost use Rattle.cut_slots.specs.Report.{calls_recorded, accepted_recorded};

use cut_book::History;
use cut_lists::Items;
use std::marker::Model;

/// The end of a slot. Contracts see the history of its study, if it had one, and whether every trial of it was held at
/// the end.
#[derive(Drop)]
pub struct SlotReport {
    history: Option<History>,
    complete: bool,
}

impl Model for SlotReport {
    ghost use Rattle.cut_slots.specs.Report.{SlotEnd, IsEndOf};

    ghost Value = { SlotEnd };

    ghost view = { λ r. record { history = r.history; complete = r.complete } };

    ghost invariant = { λ r. IsEndOf r.history r.complete };
}

impl SlotReport {
    ghost use Rattle.cut_slots.specs.Report.{IsAcceptedCount, IsEndOf};

    /// The report of a slot whose study has this history, and of one that had none.
    pub fn new(history: Option<History>, complete: bool) -> SlotReport
        requires { IsEndOf history complete }
        ensures { result ≡ record { history = history; complete = complete } }
    {
        SlotReport { history, complete }
    }

    /// How many trials it accepted: no more than its study's plan has.
    pub fn accepted(&self) -> u64
        ensures value { result ≡ accepted_recorded self.now.history }
        ensures few { IsAcceptedCount result }
        ensures end { IsEndOf self.now.history self.now.complete }
    {
        match &self.history {
            Some(history) => history.accepted(),
            None => 0,
        }
    }

    /// How many calls it had.
    pub fn calls(&self) -> u64
        ensures { result ≡ calls_recorded self.now.history }
    {
        match &self.history {
            Some(history) => history.len(),
            None => 0,
        }
    }

    /// Whether every trial was held at the end of its history.
    pub fn complete(&self) -> bool
        ensures complete { result ≡ self.now.complete }
        ensures end { IsEndOf self.now.history self.now.complete }
    {
        self.complete
    }

    /// The history of its study, if it had one.
    pub fn history(&self) -> Option<&History>
        ensures { option_copied result ≡ self.now.history }
    {
        self.history.as_ref()
    }
}

/// The end of a hall, slot by slot. Contracts see a list.
pub type Report = Items<SlotReport>;
