ghost use Rattle.std.specs.Prelude.{◌≡◌, ◌<◌, ◌||◌, ◌+◌, ◌^◌, false, true, length, IsOk};
ghost use Rattle.std.specs.Prelude.{IsSome, IfNone, IfOk, OnOk, OnErr};
ghost use Rattle.std.specs.List.{list_any};
ghost use Rattle.cut_ledger.specs.declared.event.Event.TheVariants as event;
ghost use Rattle.cut_ledger.specs.inside.Reached.{IsOver};
ghost use Rattle.cut_ledger.specs.Refusals.{CanTake};
ghost use Rattle.cut_ledger.specs.Machine.{start, opened, available, slips_found, next_bytes, is_finished};
ghost use Rattle.cut_ledger.specs.Machine.{refused_code, slip_of, reply_to, after, is_all_held, IsSizedEvent};
ghost use Rattle.cut_ledger.specs.Machine.{TakesNone};

use crate::available::available;
use crate::{Bytes, Event, Ledger, Reply, Slip, SlipsFault, slip_of};
use cut_faults::FaultCode;
use cut_outcome::{Piece, PieceResult, laws};
use cut_plan::Plan;
use std::alloc::{AllocError, Global};
use std::marker::Model;

/// One study with one wire at a time: a state machine, whose events are what happens to a running study.
///
/// Contracts see its state. If memory runs out, it stays as it was.
#[derive(Debug, Drop)]
pub struct Run {
    ledger: Ledger,
    has_journal: bool,
    division: Vec<Piece>,
    drawn: usize,
    lost: Vec<bool>,
    kept: Vec<Slip>,
    doubtful: Option<Slip>,
    broken: bool,
    sent: usize,
    wire_lost: bool,
}

impl Model for Run {
    ghost use Rattle.cut_ledger.specs.Machine.{StudyState};

    ghost Value = { StudyState };

    ghost use Rattle.cut_ledger.specs.inside.RunInside.{state_of, IsStudyRun};

    ghost view = { state_of };

    ghost invariant = { IsStudyRun };
}

impl Run {
    /// A study that begins: its trials are divided into pieces of this size, and slips are kept if it has a
    /// journal.
    pub fn start(alloc: Global, plan: Plan, size: u32, has_journal: bool) -> Result<Run, AllocError>
        requires { 0 < size }
        ensures { IfOk result (λ run. run ≡ start plan size has_journal) }
    {
        let ledger = Ledger::fresh(alloc, plan)?;
        Run::open(alloc, ledger, has_journal, Vec::new(alloc), size)
    }

    /// A study over slips that were kept, divided anew.
    fn open(
        alloc: Global,
        ledger: Ledger,
        has_journal: bool,
        kept: Vec<Slip>,
        size: u32,
    ) -> Result<Run, AllocError>
        requires size { 0 < size }
        requires ledger { IsOver ledger.contents kept.items }
        ensures { IfOk result (λ run. run ≡ opened ledger.contents.plan has_journal kept.items size) }
    {
        let division = ledger.pieces(alloc, size)?;
        let lost = vec![in alloc; false; division.len()]?;
        Ok(Run {
            ledger,
            has_journal,
            division,
            drawn: 0,
            lost,
            kept,
            doubtful: None,
            broken: false,
            sent: 0,
            wire_lost: false,
        })
    }

    /// What the run answers to an event, after which it is in the state that follows. Memory is needed only
    /// to take a result that is not refused, to resume, to write to a good wire, and to say at the end how
    /// long the whole table is.
    pub fn apply(&mut self, alloc: Global, event: Event) -> Result<Reply, AllocError>
        requires { IsSizedEvent event }
        ensures reply { IfOk result (λ reply. reply ≡ reply_to self.old event) }
        ensures after { OnOk result (self.new ≡ after self.old event) }
        ensures free { TakesNone self.old event → IsOk result }
        ensures err { OnErr result (self.new ≡ self.old) }
    {
        match event {
            Event::Draw => Ok(self.draw()),
            Event::HandIn(offered) => self.hand_in(&offered),
            Event::HandInDiskFails(offered) => Ok(self.fail_append(&offered)),
            Event::Lose(piece) => Ok(self.lose(piece)),
            Event::CrashReopen { keep, size } => self.reopen(alloc, keep, size),
            Event::Emit(limit) => self.emit(alloc, limit, false),
            Event::WireFails(limit) => self.emit(alloc, limit, true),
            Event::NewWire => Ok(self.begin_wire()),
            Event::Finish => self.finish(alloc),
        }
    }

    /// The next piece of the division is drawn.
    fn draw(&mut self) -> Reply
        ensures reply { result ≡ reply_to self.old event.Draw }
        ensures after { self.new ≡ after self.old event.Draw }
    {
        match self.division.get(self.drawn).copied() {
            Some(piece) => {
                self.drawn += 1;
                Reply::Piece(piece)
            }
            None => Reply::NoPiece,
        }
    }

    /// The reason to refuse a result, if there is one.
    fn refusal(&self, offered: &PieceResult) -> Option<FaultCode>
        ensures code { result ≡ refused_code self.now offered.now }
        ensures unbroken { IfNone result (self.now.broken ≡ false) }
        ensures none { IfNone result (CanTake self.now.ledger offered.now) }
    {
        if self.broken {
            return Some(FaultCode::Checkpoint);
        }
        match self.ledger.refusal(offered) {
            Some(fault) => Some(fault.code()),
            None => None,
        }
    }

    /// A result is handed in, and taken unless it is refused.
    fn hand_in(&mut self, offered: &PieceResult) -> Result<Reply, AllocError>
        ensures reply { IfOk result (λ reply. reply ≡ reply_to self.old (event.HandIn offered.now)) }
        ensures after { OnOk result (self.new ≡ after self.old (event.HandIn offered.now)) }
        ensures free { IsSome (refused_code self.old offered.now) → IsOk result }
        ensures err { OnErr result (self.new ≡ self.old) }
    {
        if let Some(code) = self.refusal(offered) {
            return Ok(Reply::Refused(code));
        }
        let slip = slip_of(offered);
        self.kept.reserve(1)?;
        self.ledger.take(offered)?;
        if self.has_journal {
            self.kept.push(slip)?;
        }
        Ok(Reply::Accepted)
    }

    /// A result is handed in, and the append of its slip fails, unless it is refused.
    fn fail_append(&mut self, offered: &PieceResult) -> Reply
        ensures reply { result ≡ reply_to self.old (event.HandInDiskFails offered.now) }
        ensures after { self.new ≡ after self.old (event.HandInDiskFails offered.now) }
    {
        if let Some(code) = self.refusal(offered) {
            return Reply::Refused(code);
        }
        let slip = slip_of(offered);
        self.broken = true;
        self.doubtful = Some(slip);
        Reply::Refused(FaultCode::Checkpoint)
    }

    /// A piece of the division is lost.
    fn lose(&mut self, piece: u64) -> Reply
        ensures reply { result ≡ reply_to self.old (event.Lose piece) }
        ensures after { self.new ≡ after self.old (event.Lose piece) }
    {
        let piece = piece as usize;
        if piece >= self.lost.len() || self.lost[piece] {
            return Reply::Refused(FaultCode::BadPiece);
        }
        self.lost[piece] = true;
        Reply::Noted
    }

    /// The study is resumed from its slips.
    fn reopen(&mut self, alloc: Global, keep: bool, size: u32) -> Result<Reply, AllocError>
        requires { 0 < size }
        ensures reply { IfOk result (λ reply. reply ≡ reply_to self.old (event.CrashReopen keep size)) }
        ensures after { OnOk result (self.new ≡ after self.old (event.CrashReopen keep size)) }
        ensures err { OnErr result (self.new ≡ self.old) }
    {
        laws::pieces_have_possible_totals();
        let slips = self.slips_found(alloc, keep)?;
        let plan = self.ledger.plan().try_clone(alloc)?;
        let ledger = match Ledger::from_slips(alloc, plan, slips.as_slice()) {
            Ok(ledger) => ledger,
            Err(SlipsFault::Memory) => return Err(AllocError),
            Err(SlipsFault::BadSlip(_)) => unreachable!(),
        };
        *self = Run::open(alloc, ledger, self.has_journal, slips, size)?;
        Ok(Reply::Opened)
    }

    /// The slips that are found at a resumption: none without a journal.
    fn slips_found(&self, alloc: Global, keep: bool) -> Result<Vec<Slip>, AllocError>
        ensures { IfOk result (λ slips. slips.items ≡ slips_found self.now keep) }
    {
        if !self.has_journal {
            return Ok(Vec::new(alloc));
        }
        let mut slips = Vec::from_slice(alloc, self.kept.as_slice())?;
        if let (true, Some(slip)) = (keep, self.doubtful) {
            slips.push(slip)?;
        }
        Ok(slips)
    }

    /// The wire takes the next bytes that there are for it, and may fail then.
    fn emit(&mut self, alloc: Global, limit: u64, fails: bool) -> Result<Reply, AllocError>
        ensures reply { IfOk result (λ reply. reply ≡ reply_to self.old (event.Emit limit)) }
        ensures after { OnOk result (self.new
            ≡ record (after self.old (event.Emit limit)) { wire_lost = self.old.wire_lost || fails }) }
        ensures free { self.old.wire_lost ≡ true → IsOk result }
        ensures err { OnErr result (self.new ≡ self.old) }
    {
        if self.wire_lost {
            return Ok(Reply::Bytes(Bytes::from_vec(Vec::new(alloc))));
        }
        let bytes = self.next_bytes(alloc, limit)?;
        self.sent += bytes.len();
        self.wire_lost = fails;
        Ok(Reply::Bytes(Bytes::from_vec(bytes)))
    }

    /// The next bytes that there are for a good wire, at most `limit`.
    fn next_bytes(&self, alloc: Global, limit: u64) -> Result<Vec<u8>, AllocError>
        requires { self.now.wire_lost ≡ false }
        ensures bytes { IfOk result (λ bytes. bytes.items ≡ next_bytes self.now limit) }
        ensures small { IfOk result (λ bytes. self.now.sent + length bytes.items < 2 ^ 64) }
    {
        let text = available(alloc, &self.ledger)?;
        let rest = &text[self.sent..];
        let count = rest.len().min(limit as usize);
        Vec::from_slice(alloc, &rest[..count])
    }

    /// Another wire is written to, from the beginning of the table.
    fn begin_wire(&mut self) -> Reply
        ensures reply { result ≡ reply_to self.old event.NewWire }
        ensures after { self.new ≡ after self.old event.NewWire }
    {
        self.sent = 0;
        self.wire_lost = false;
        Reply::Ready
    }

    /// Whether the study is done, and if not, why not.
    fn finish(&mut self, alloc: Global) -> Result<Reply, AllocError>
        ensures reply { IfOk result (λ reply. reply ≡ reply_to self.old event.Finish) }
        ensures after { self.new ≡ self.old }
        ensures free { is_all_held self.old ≡ false → IsOk result }
    {
        if self.is_finished(alloc)? {
            return Ok(Reply::Done);
        }
        if self.broken {
            return Ok(Reply::Refused(FaultCode::Checkpoint));
        }
        if self.has_lost() {
            return Ok(Reply::Refused(FaultCode::WorkMemory));
        }
        Ok(Reply::NotYet)
    }

    /// Whether some piece is lost.
    fn has_lost(&self) -> bool
        ensures { result ≡ list_any (λ is_lost. is_lost) self.now.lost }
    {
        self.lost.iter().any(|is_lost| *is_lost)
    }

    /// Whether every trial is held, and the wire has taken the whole table.
    fn is_finished(&self, alloc: Global) -> Result<bool, AllocError>
        ensures value { IfOk result (λ is. is ≡ is_finished self.now) }
        ensures free { is_all_held self.now ≡ false → IsOk result }
    {
        if self.wire_lost || !self.ledger.complete() {
            return Ok(false);
        }
        let text = available(alloc, &self.ledger)?;
        Ok(self.sent == text.len())
    }
}
