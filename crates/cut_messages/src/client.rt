ghost use Rattle.std.specs.Prelude.{◌≡◌, ◌<◌, ◌≤◌, length};
ghost use Rattle.cut_messages.specs.declared.side.TheConstants.{LONGEST_PAYLOAD};
ghost use Rattle.cut_wires.specs.Sending.{Sends, sending};
ghost use Rattle.cut_messages.specs.Asking.{request, Asks};
ghost use Rattle.cut_messages.specs.inside.Asking.{Requests};

use crate::frame::send_message;
use crate::replies::{AnswerState, take_piece};
use crate::side::LONGEST_PAYLOAD;
use crate::{AskFault, Kind, Reader};
use cut_wires::{CountingWriter, Sent, Wire};
use std::alloc::Global;

/// How many bytes a read brings at most.
const READ_SIZE: usize = 4096;

/// How many reads there are at most.
const MOST_READS: u64 = 1 << 32;

/// Asks for the table of one plan over a wire, and writes its lines to an output as they come.
///
/// It sends the plan and the end of its requests, and skips replies that carry no line. If the plan is too long,
/// nothing is sent. At an error the output has the lines that came before it; if a write of the output failed, some
/// first bytes of these.
pub fn ask<W: Wire, O: Wire>(
    alloc: Global,
    plan_text: &[u8],
    wire: &mut W,
    output: &mut O,
) -> Result<(), AskFault>
    ensures asks { Asks plan_text.now result
        (W.log wire.old) (W.log wire.new) (O.log output.old) (O.log output.new) }
    ensures unsent { LONGEST_PAYLOAD < length plan_text.now →
        (wire.new ≡ wire.old) × (output.new ≡ output.old) }
{
    if plan_text.len() > LONGEST_PAYLOAD as usize {
        return Err(AskFault::PlanTooLong);
    }
    match send_request(wire, plan_text) {
        Ok(()) => {}
        Err(_) => return Err(AskFault::Request),
    }
    let mut reader = Reader::replies(alloc);
    let mut buffer = [0; READ_SIZE];
    for _ in 0..MOST_READS {
        let count = match wire.read(&mut buffer) {
            Ok(count) => count,
            Err(_) => return Err(AskFault::Read),
        };
        if count == 0 {
            return Err(AskFault::Truncated);
        }
        match take_piece(alloc, &mut reader, &buffer[..count], output) {
            Ok(AnswerState::More) => {}
            Ok(AnswerState::Done) => return Ok(()),
            Err(fault) => return Err(fault),
        }
    }
    Err(AskFault::Endless)
}

/// Sends a plan and the end of the requests.
fn send_request<W: Wire>(wire: &mut W, plan_text: &[u8]) -> Result<(), Sent>
    requires { length plan_text.now ≤ LONGEST_PAYLOAD }
    ensures { Requests result plan_text.now (W.log wire.old) (W.log wire.new) }
{
    send_both(&mut CountingWriter::new(wire), plan_text)
}

/// Sends both, and counts the bytes.
fn send_both<W: Wire>(writer: &mut CountingWriter<'_, W>, plan_text: &[u8]) -> Result<(), Sent>
    requires { length plan_text.now ≤ LONGEST_PAYLOAD }
    ensures { Sends result (request plan_text.now) (sending W.log writer.old) (sending W.log writer.new) }
{
    match send_message(writer, Kind::Submit, plan_text) {
        Ok(()) => send_message(writer, Kind::Quit, &[]),
        Err(fault) => Err(fault),
    }
}
