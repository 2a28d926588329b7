ghost use Rattle.std.specs.Prelude.{◌≡◌, ◌-◌, ◌≤◌, None, length, drop, IfOk};
ghost use Rattle.cut_messages.specs.Frames.{fault_at};
ghost use Rattle.cut_messages.specs.Reading.{Splits};

use crate::prefix::{HEAD, Prefix, prefix_of};
use crate::{Message, Payload, Side, StreamFault};
use std::alloc::{AllocError, Global};

/// Bytes of a stream, read up to the first that are not a complete message.
#[derive(Drop)]
pub(crate) struct Split {
    pub messages: Vec<Message>,
    /// How many bytes the messages take.
    pub read: usize,
    /// What is wrong after them.
    pub fault: Option<StreamFault>,
}

/// Reads the messages that some bytes begin with.
pub(crate) fn messages_in(alloc: Global, side: Side, bytes: &[u8]) -> Result<Split, AllocError>
    ensures splits { IfOk result
        (λ s. Splits side bytes.now s.messages.items (drop s.read bytes.now)) }
    ensures fault { IfOk result (λ s. s.fault ≡ fault_at side (drop s.read bytes.now)) }
    ensures within { IfOk result (λ s. s.read ≤ length bytes.now) }
    ensures short { IfOk result (λ s. s.fault ≡ None → length bytes.now - s.read ≤ 65540) }
{
    let mut messages = Vec::new(alloc);
    let mut read = 0;
    loop {
        let (kind, length) = match prefix_of(side, &bytes[read..]) {
            Prefix::Whole(kind, length) => (kind, length),
            Prefix::Wrong(fault) => return Ok(Split {
                messages,
                read,
                fault: Some(fault),
            }),
            Prefix::Short => return Ok(Split {
                messages,
                read,
                fault: None,
            }),
        };
        let start = read + HEAD;
        let payload = Vec::from_slice(alloc, &bytes[start..start + length])?;
        let payload = Payload::from_vec(payload);
        messages.push(Message { kind, payload })?;
        read = start + length;
    }
}
