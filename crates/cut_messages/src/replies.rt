ghost use Rattle.std.specs.Prelude.{◌≡◌, [], ◌∷◌, List, ℕ};
ghost use Rattle.std.specs.Int.{w16, from_be_bytes};
ghost use Rattle.cut_messages.specs.declared.message.Message.{Message};
ghost use Rattle.cut_messages.specs.Reading.{HasReadFrames};
ghost use Rattle.cut_messages.specs.Asking.{Passes};
ghost use Rattle.cut_messages.specs.inside.Listening.{Steps};

use crate::{AskFault, Kind, Message, Reader};
use cut_wires::{Wire, send_all};
use std::alloc::Global;

/// Whether an answer has ended.
#[derive(Clone, Copy)]
pub(crate) enum AnswerState {
    /// It has more to come.
    More,
    /// The table is whole.
    Done,
}

/// Takes the next piece of an answer, and writes the lines that it completes.
pub(crate) fn take_piece<O: Wire>(
    alloc: Global,
    reader: &mut Reader,
    piece: &[u8],
    output: &mut O,
) -> Result<AnswerState, AskFault>
    ensures steps { (stream : List ℕ) (messages : List Message) → HasReadFrames reader.old stream messages →
        Steps result reader.old reader.new stream piece.now messages (O.log output.old) (O.log output.new) }
    ensures side { reader.new.side ≡ reader.old.side }
{
    let fed = match reader.feed(alloc, piece) {
        Ok(fed) => fed,
        Err(_) => return Err(AskFault::Memory),
    };
    match pass_all(fed.messages.as_slice(), output) {
        Ok(AnswerState::More) => match fed.fault {
            Some(fault) => Err(AskFault::Stream(fault)),
            None => Ok(AnswerState::More),
        },
        Ok(AnswerState::Done) => Ok(AnswerState::Done),
        Err(fault) => Err(fault),
    }
}

/// Writes the lines of replies up to the last one.
fn pass_all<O: Wire>(messages: &[Message], output: &mut O) -> Result<AnswerState, AskFault>
    ensures { Passes messages.now result (O.log output.old) (O.log output.new) }
{
    for message in messages {
        match pass(message, output) {
            Ok(AnswerState::More) => {}
            Ok(AnswerState::Done) => return Ok(AnswerState::Done),
            Err(fault) => return Err(fault),
        }
    }
    Ok(AnswerState::More)
}

/// Writes the line of one reply, if it has one.
fn pass<O: Wire>(message: &Message, output: &mut O) -> Result<AnswerState, AskFault>
    ensures { Passes (message.now ∷ []) result (O.log output.old) (O.log output.new) }
{
    let payload = message.payload.as_slice();
    match message.kind {
        Kind::Row => match send_all(output, payload) {
            Ok(()) => Ok(AnswerState::More),
            Err(_) => Err(AskFault::Output),
        },
        Kind::Done => Ok(AnswerState::Done),
        Kind::Fault => Err(AskFault::Reported(read_fault_number(payload))),
        Kind::Submit | Kind::Count | Kind::Quit => Ok(AnswerState::More),
    }
}

/// The number that stands in the first two bytes.
fn read_fault_number(bytes: &[u8]) -> u16
    ensures { result ≡ from_be_bytes w16 bytes.now }
{
    match bytes {
        [high, low, ..] => u16::from_be_bytes([*high, *low]),
        [high] => u16::from_be_bytes([*high, 0]),
        [] => 0,
    }
}
