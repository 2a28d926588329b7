ghost use Rattle.std.specs.Prelude.{◌≡◌, ◌+◌, ◌≤◌, ◌∷◌, length, take};
ghost use Rattle.std.specs.Int.{w32, to_be_bytes};
ghost use Rattle.cut_messages.specs.declared.side.TheConstants.{LONGEST_PAYLOAD};
ghost use Rattle.cut_wires.specs.Sending.{Sends, sending};
ghost use Rattle.cut_messages.specs.Kinds.{byte_of};
ghost use Rattle.cut_messages.specs.Frames.{frame};

use crate::Kind;
use crate::prefix::HEAD;
use cut_wires::{CountingWriter, Encoding, Sent, Wire};

/// The most bytes of a frame that is handed to the wire by one write.
const BUFFER: usize = 512;

/// Sends a message by a counting writer. A message of at most 512 bytes is handed to the wire by one write.
pub fn send_message<W: Wire>(
    writer: &mut CountingWriter<'_, W>,
    kind: Kind,
    payload: &[u8],
) -> Result<(), Sent>
    requires { length payload.now ≤ LONGEST_PAYLOAD }
    ensures { Sends result (frame kind payload.now) (sending W.log writer.old) (sending W.log writer.new) }
{
    if payload.len() > BUFFER - HEAD {
        return send_parts(writer, kind, payload);
    }
    let mut buffer = [0; BUFFER];
    put_message(&mut buffer, kind, payload);
    writer.send(&buffer[..HEAD + payload.len()])
}

/// Sends the same by one write for what precedes the payload, and others for the payload.
fn send_parts<W: Wire>(
    writer: &mut CountingWriter<'_, W>,
    kind: Kind,
    payload: &[u8],
) -> Result<(), Sent>
    requires { length payload.now ≤ LONGEST_PAYLOAD }
    ensures { Sends result (frame kind payload.now) (sending W.log writer.old) (sending W.log writer.new) }
{
    let head = head_of(kind, payload.len() as u32);
    match writer.send(head.as_slice()) {
        Ok(()) => writer.send(payload),
        Err(fault) => Err(fault),
    }
}

/// Puts a message into the first places of a buffer.
fn put_message(buffer: &mut [u8], kind: Kind, payload: &[u8])
    requires room { 5 + length payload.now ≤ length buffer.old }
    requires short { length payload.now ≤ LONGEST_PAYLOAD }
    ensures { take (5 + length payload.now) buffer.new ≡ frame kind payload.now }
{
    let head = head_of(kind, payload.len() as u32);
    let (first, rest) = buffer.split_at_mut(HEAD);
    first.copy_from_slice(head.as_slice());
    rest[..payload.len()].copy_from_slice(payload);
}

/// What comes before a payload of this length.
fn head_of(kind: Kind, length: u32) -> [u8; 5]
    ensures { result ≡ byte_of kind ∷ to_be_bytes w32 length }
{
    let [a, b, c, d] = length.to_be_bytes();
    [kind.byte(), a, b, c, d]
}

/// A text is sent as a message that carries a line of a table.
pub struct FramedRows;

impl Encoding for FramedRows {
    ghost use Rattle.std.proofs.Common.{arith, length-append};
    ghost use Rattle.cut_messages.specs.declared.kind.Kind.TheVariants.{Row};

    ghost framed = { λ text. frame Row text };

    fn send<W: Wire>(writer: &mut CountingWriter<'_, W>, text: &[u8]) -> Result<(), Sent> {
        send_message(writer, Kind::Row, text)
    }

    ghost short = { λ text. Prim.omega (arith, length-append (to_be_bytes w32 (length text)) text) };
}
