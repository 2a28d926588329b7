ghost use Rattle.std.specs.Prelude.{◌≡◌, ◌<◌, length, IfOk, IfErr, OnOk, Err};
ghost use Rattle.cut_journal.specs.Reading.{reading};
ghost use Rattle.cut_journal.specs.Unread.{IsReadNext, IsUnreadable};
ghost use Rattle.cut_journal.specs.inside.Steps.{IsOfPlan, IsStep};

use crate::JournalFault;
use crate::first_bytes::check_head;
use crate::format::{FileHeader, Gate, OPEN_GATE};
use cut_ledger::Slip;
use cut_plan::Plan;
use std::alloc::Global;
use std::marker::Model;

/// The slips of a study whose file is in memory, read one after another, up to the first closed gate. Neither the
/// bytes are copied nor a list of the slips is kept. Contracts see what is still to be read.
#[derive(Drop)]
pub struct KeptSlips<'a> {
    bytes: &'a [u8],
    study: FileHeader,
    gate: Gate,
}

impl<'a> Model for KeptSlips<'a> {
    ghost use Rattle.cut_journal.specs.Unread.{Unread};

    ghost Value = { Unread };

    ghost use Rattle.cut_journal.specs.inside.UnreadInside.{unread_of, IsAtGate};

    ghost view = { unread_of };

    ghost invariant = { IsAtGate };
}

impl<'a> KeptSlips<'a> {
    /// The slips that bytes have of a plan's study. They are refused as a journal is not reopened: where they hold no
    /// study, their header is damaged or of another plan, or memory ran out.
    pub fn of(alloc: Global, bytes: &'a [u8], plan: &Plan) -> Result<KeptSlips<'a>, JournalFault>
        ensures read { IfOk result (λ kept. kept.slips ≡ reading plan.now bytes.now) }
        ensures err { IfErr result (IsUnreadable plan.now bytes.now) }
    {
        let study = match FileHeader::of(alloc, plan) {
            Ok(study) => study,
            Err(_) => return Err(JournalFault::Memory),
        };
        match check_head(&study, bytes) {
            Ok(()) => {
                let gate = study.first_gate();
                Ok(KeptSlips { bytes, study, gate })
            }
            Err(fault) => Err(fault),
        }
    }

    /// Reads the next slip, if the gate before it is open. After the last slip, and after one that is damaged, each
    /// further call returns the same. Takes no memory.
    pub fn next(&mut self) -> Result<Option<Slip>, JournalFault>
        ensures { IsReadNext result self.old self.new }
    {
        let rest = &self.bytes[self.gate.place as usize..];
        let slip = match first_slip(&self.study, rest, self.gate.number + 1) {
            Ok(Some(slip)) => slip,
            Ok(None) => return Ok(None),
            Err(fault) => return Err(fault),
        };
        self.gate = Gate {
            number: self.gate.number + 1,
            place: self.gate.place + self.study.slip_length(),
        };
        Ok(Some(slip))
    }
}

/// The slip after the gate with which bytes begin, if that is open. The slip has this number.
fn first_slip(study: &FileHeader, rest: &[u8], number: u64) -> Result<Option<Slip>, JournalFault>
    requires { 0 < length rest.now }
    ensures { IsStep result study.now number rest.now }
{
    if rest[0] != OPEN_GATE {
        return Ok(None);
    }
    let length = study.slip_length() as usize;
    if rest.len() <= length {
        return Err(JournalFault::Damaged(number));
    }
    match study.slip_in(&rest[1..length]) {
        Some(slip) => Ok(Some(slip)),
        None => Err(JournalFault::Damaged(number)),
    }
}
