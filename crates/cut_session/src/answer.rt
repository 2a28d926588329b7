ghost use Rattle.std.specs.Prelude.{true, ◌≡◌, slice_index};
ghost use Rattle.std.specs.Int.{w32, from_be_bytes};
ghost use Rattle.cut_wires.specs.Sending.{sending};
ghost use Rattle.cut_session.specs.Answering.{AnswersCount, AnswersText, Rises};
ghost use Rattle.cut_session.specs.inside.Serving.{Replies, Serves, ServesAll, longest_reply};

use crate::SessionEnd;
use crate::fault_reply::send_fault;
use crate::rows::{OpenedRows, send_table};
use cut_board::laws;
use cut_book::Shelf;
use cut_disks::Disk;
use cut_faults::FaultCode;
use cut_hall::{CallLedger, Hall, Pass};
use cut_messages::{Kind, Message, send_message};
use cut_plan::{Plan, PlanFault};
use cut_wires::{CountingWriter, Sent, Wire};
use std::alloc::Global;
use std::sync::Wait;

/// What a session does after requests.
#[derive(Clone, Copy)]
pub(crate) enum Continuation {
    /// It takes the next one.
    On,
    /// The client has quit.
    Over,
}

/// What a session borrows to answer its requests: the hall and its own pass, and the shelf on which studies are kept.
#[derive(Drop)]
pub(crate) struct Session<'a, D: Disk, M: CallLedger, K: CallLedger, S: Shelf<D>, R> {
    pub(crate) rt: &'a R,
    pub(crate) alloc: Global,
    pub(crate) hall: &'a Hall<D, M, K>,
    pub(crate) pass: &'a mut Pass<M>,
    pub(crate) shelf: &'a S,
    ghost own: { pass.now.hall ≡ hall.now.id },
    ghost trusted: { hall.now.is_trusted ≡ true → S.is_true shelf.now ≡ true },
}

impl<D, M, K, S, R> Session<'_, D, M, K, S, R>
where
    D: Disk + Drop,
    M: CallLedger,
    K: CallLedger,
    S: Shelf<D>,
    R: Wait,
{
    /// Answers requests in order. Fails if the session ends: at one that quits, or if a write of a reply fails.
    pub(crate) fn answer_all<W: Wire>(
        &mut self,
        writer: &mut CountingWriter<'_, W>,
        messages: &[Message],
    ) -> Result<(), SessionEnd>
        ensures serves { ServesAll self.old.hall.now self.old.pass.now.view self.new.pass.now.view messages.now
            result (sending W.log writer.old) (sending W.log writer.new) }
        ensures stays { (self.new.hall.now ≡ self.old.hall.now)
            × (self.new.pass.ghost_name ≡ self.old.pass.ghost_name) }
    {
        for message in messages {
            match self.answer(writer, message) {
                Ok(Continuation::On) => {}
                Ok(Continuation::Over) => return Err(SessionEnd::Quit),
                Err(fault) => return Err(SessionEnd::Write(fault)),
            }
        }
        Ok(())
    }

    /// Answers one request.
    fn answer<W: Wire>(
        &mut self,
        writer: &mut CountingWriter<'_, W>,
        message: &Message,
    ) -> Result<Continuation, Sent>
        ensures serves { Serves self.old.hall.now self.old.pass.now.view self.new.pass.now.view message.now
            result (sending W.log writer.old) (sending W.log writer.new) }
        ensures stays { (self.new.hall.now ≡ self.old.hall.now)
            × (self.new.pass.ghost_name ≡ self.old.pass.ghost_name) }
    {
        let payload = message.payload.as_slice();
        match message.kind {
            Kind::Submit => match self.answer_submit(writer, payload) {
                Ok(()) => Ok(Continuation::On),
                Err(fault) => Err(fault),
            },
            Kind::Count => match self.answer_count(writer, payload) {
                Ok(()) => Ok(Continuation::On),
                Err(fault) => Err(fault),
            },
            Kind::Quit => Ok(Continuation::Over),
            Kind::Row | Kind::Done | Kind::Fault => Ok(Continuation::On),
        }
    }

    /// Answers the question how many trials of a study are counted.
    fn answer_count<W: Wire>(
        &mut self,
        writer: &mut CountingWriter<'_, W>,
        payload: &[u8],
    ) -> Result<(), Sent>
        ensures replies { Replies (AnswersCount self.old.hall.now self.old.pass.now.view self.new.pass.now.view
            (from_be_bytes w32 payload.now)) longest_reply result (sending W.log writer.old)
            (sending W.log writer.new) }
        ensures rises { Rises self.old.pass.now.view self.new.pass.now.view }
        ensures stays { (self.new.hall.now ≡ self.old.hall.now)
            × (self.new.pass.ghost_name ≡ self.old.pass.ghost_name) }
    {
        laws::reads_are_seen();
        match self.hall.counted(self.pass, read_study_number(payload)) {
            Ok(count) => send_message(writer, Kind::Count, &count.to_be_bytes()),
            Err(fault) => send_fault(writer, fault.code()),
        }
    }

    /// Answers the text of a plan: by the table of its study as it is done, or by a fault.
    fn answer_submit<W: Wire>(
        &mut self,
        writer: &mut CountingWriter<'_, W>,
        text: &[u8],
    ) -> Result<(), Sent>
        ensures replies { Replies (AnswersText self.old.hall.now.is_trusted text.now) longest_reply result
            (sending W.log writer.old) (sending W.log writer.new) }
        ensures view { self.new.pass.now.view ≡ self.old.pass.now.view }
        ensures stays { (self.new.hall.now ≡ self.old.hall.now)
            × (self.new.pass.ghost_name ≡ self.old.pass.ghost_name) }
    {
        let plan = match Plan::from_json(self.alloc, text) {
            Ok(plan) => plan,
            Err(PlanFault::Memory) => return send_fault(writer, FaultCode::WorkMemory),
            Err(PlanFault::Refused(refusal)) => return send_fault(writer, refusal.code()),
        };
        let (rt, alloc, hall) = (self.rt, self.alloc, self.hall);
        match hall.submit(rt, alloc, self.pass, plan, self.shelf) {
            Ok(opened) => {
                let mut rows = OpenedRows {
                    rt,
                    alloc,
                    hall,
                    pass: &mut *self.pass,
                    opened: &opened,
                };
                send_table(&mut rows, writer)
            }
            Err(fault) => send_fault(writer, fault.code()),
        }
    }
}

/// The number that stands in the first four bytes.
fn read_study_number(bytes: &[u8]) -> u32
    ensures { result ≡ from_be_bytes w32 bytes.now }
{
    u32::from_be_bytes([
        byte_at(bytes, 0),
        byte_at(bytes, 1),
        byte_at(bytes, 2),
        byte_at(bytes, 3),
    ])
}

/// The byte at a place, 0 after the last one.
fn byte_at(bytes: &[u8], place: usize) -> u8
    ensures { result ≡ slice_index bytes.now place }
{
    bytes.get(place).copied().unwrap_or(0)
}
