ghost use Rattle.std.specs.Prelude.{true, ◌≡◌, ◌<◌, ◌≤◌, [], length, IfOk};
ghost use Rattle.cut_board.specs.declared.view.View.{View};
ghost use Rattle.cut_wires.specs.Sending.{Sending, sending};
ghost use Rattle.cut_session.specs.Session.{EndsSession};
ghost use Rattle.cut_session.specs.inside.Serving.{IsServing, Goes, LeavesSending, ConcludesTable};

use crate::answer::Session;
use crate::fault_reply::send_fault;
use crate::{SessionEnd, SessionFault};
use cut_book::Shelf;
use cut_disks::Disk;
use cut_hall::{CallLedger, Hall, Pass};
use cut_messages::Reader;
use cut_wires::{CountingWriter, Wire};
use std::alloc::Global;
use std::sync::Wait;

/// How many bytes a read brings at most.
const READ_SIZE: usize = 4096;

/// How many requests are answered.
const MOST_REQUESTS: u32 = 1_000_000;

/// Serves a client over a wire: reads its requests, at most 4,096 bytes at a time, and answers them in order.
///
/// A plan is answered by the table of its study, line by line as each comes, and that it is whole; or by the
/// fault for which it has none. A number of a slot is answered by how many trials of its study are counted,
/// which never falls. After a request that quits no message is answered, and after 1,000,000 requests no
/// further one. A fault of the input, one of the reads, and that memory ran out for a message are reported after
/// the replies to the messages before. What others do in the hall goes on, however the session ends.
pub fn session<D, M, K, S, W, R>(
    rt: &R,
    alloc: Global,
    hall: &Hall<D, M, K>,
    pass: &mut Pass<M>,
    shelf: &S,
    wire: &mut W,
) -> SessionEnd
where
    D: Disk + Drop,
    M: CallLedger,
    K: CallLedger,
    S: Shelf<D>,
    W: Wire,
    R: Wait,
    requires own { pass.old.hall ≡ hall.now.id }
    requires trusted { hall.now.is_trusted ≡ true → S.is_true shelf.now ≡ true }
    ensures ends { EndsSession hall.now pass.old.view pass.new.view result (W.log wire.old) (W.log wire.new) }
    ensures own { pass.new.hall ≡ pass.old.hall }
{
    let mut session = Session {
        rt,
        alloc,
        hall,
        pass,
        shelf,
    };
    session.run(wire)
}

impl<D, M, K, S, R> Session<'_, D, M, K, S, R>
where
    D: Disk + Drop,
    M: CallLedger,
    K: CallLedger,
    S: Shelf<D>,
    R: Wait,
{
    /// Serves a client over a wire.
    fn run<W: Wire>(&mut self, wire: &mut W) -> SessionEnd
        ensures ends { EndsSession self.old.hall.now self.old.pass.now.view self.new.pass.now.view result
            (W.log wire.old) (W.log wire.new) }
        ensures stays { (self.new.hall.now ≡ self.old.hall.now)
            × (self.new.pass.ghost_name ≡ self.old.pass.ghost_name) }
    {
        self.serve(&mut CountingWriter::new(wire))
    }

    /// Serves a client by a counting writer, which has sent nothing yet.
    fn serve<W: Wire>(&mut self, writer: &mut CountingWriter<'_, W>) -> SessionEnd
        requires { (sending W.log writer.old).sent ≡ 0 }
        ensures ends { ConcludesTable self.old.hall.now self.old.pass.now.view self.new.pass.now.view result
            (sending W.log writer.old) (sending W.log writer.new) }
        ensures stays { (self.new.hall.now ≡ self.old.hall.now)
            × (self.new.pass.ghost_name ≡ self.old.pass.ghost_name) }
    {
        let mut reader = Reader::requests(self.alloc);
        let mut requests = 0;
        let mut buffer = [0; READ_SIZE];
        for _ in self.rt.forever() {
            match self.take_next(writer, &mut reader, &mut buffer, requests) {
                Ok(more) => requests = more,
                Err(end) => return end,
            }
        }
        unreachable!()
    }

    /// Reads the wire once, and answers the requests that are complete then. Returns how many requests are answered
    /// then.
    fn take_next<W: Wire>(
        &mut self,
        writer: &mut CountingWriter<'_, W>,
        reader: &mut Reader,
        buffer: &mut [u8; READ_SIZE],
        requests: u32,
    ) -> Result<u32, SessionEnd>
        requires few { requests ≤ MOST_REQUESTS }
        ensures goes { (low : View) (first : Sending) → first.sent ≡ 0 →
            (s : IsServing self.old.hall.now low self.old.pass.now.view reader.old requests []
            first (sending W.log writer.old)) →
            Goes self.old.hall.now low self.new.pass.now.view s.stream result reader.new
            first (sending W.log writer.new) }
        ensures few { IfOk result (λ more. more ≤ MOST_REQUESTS) }
        ensures stays { (self.new.hall.now ≡ self.old.hall.now)
            × (self.new.pass.ghost_name ≡ self.old.pass.ghost_name) }
    {
        let count = match writer.read(buffer) {
            Ok(count) => count,
            Err(_) => return Err(leave(writer, SessionFault::Read)),
        };
        if count == 0 {
            match reader.finish() {
                Ok(()) => return Err(SessionEnd::EndOfInput),
                Err(_) => return Err(leave(writer, SessionFault::Truncated)),
            }
        }
        self.take_piece(writer, reader, &buffer[..count], requests)
    }

    /// Reads the next piece of the input, and answers the requests that it completes. Returns how many requests are
    /// answered then.
    fn take_piece<W: Wire>(
        &mut self,
        writer: &mut CountingWriter<'_, W>,
        reader: &mut Reader,
        piece: &[u8],
        requests: u32,
    ) -> Result<u32, SessionEnd>
        requires few { requests ≤ MOST_REQUESTS }
        requires piece { (0 < length piece.now) × (length piece.now ≤ READ_SIZE) }
        ensures goes { (low : View) (first : Sending) → first.sent ≡ 0 →
            (s : IsServing self.old.hall.now low self.old.pass.now.view reader.old requests piece.now
            first (sending W.log writer.old)) →
            Goes self.old.hall.now low self.new.pass.now.view s.stream result reader.new
            first (sending W.log writer.new) }
        ensures few { IfOk result (λ more. more ≤ MOST_REQUESTS) }
        ensures stays { (self.new.hall.now ≡ self.old.hall.now)
            × (self.new.pass.ghost_name ≡ self.old.pass.ghost_name) }
    {
        let fed = match reader.feed(self.alloc, piece) {
            Ok(fed) => fed,
            Err(_) => return Err(leave(writer, SessionFault::Memory)),
        };
        let messages = fed.messages.as_slice();
        let count = messages.len().min((MOST_REQUESTS - requests) as usize);
        match self.answer_all(writer, &messages[..count]) {
            Ok(()) => {}
            Err(end) => return Err(end),
        }
        if count < messages.len() {
            return Err(leave(writer, SessionFault::TooManyRequests));
        }
        match fed.fault {
            Some(fault) => Err(leave(writer, SessionFault::Stream(fault))),
            None => Ok(requests + count as u32),
        }
    }
}

/// Sends the client the fault that ends the session.
fn leave<W: Wire>(writer: &mut CountingWriter<'_, W>, fault: SessionFault) -> SessionEnd
    ensures { LeavesSending fault result (sending W.log writer.old) (sending W.log writer.new) }
{
    match send_fault(writer, fault.code()) {
        Ok(()) => SessionEnd::Fault(fault),
        Err(failed) => SessionEnd::Write(failed),
    }
}
