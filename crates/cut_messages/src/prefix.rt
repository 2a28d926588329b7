ghost use Rattle.std.specs.Prelude.{◌≡◌, ◌≤◌, length, take, drop};
ghost use Rattle.std.specs.Int.{w32, from_be_bytes};
ghost use Rattle.cut_messages.specs.inside.Prefixes.{IsPrefixOfFrame};

use crate::{Kind, Side, StreamFault};

/// How many bytes stand before a payload.
pub(crate) const HEAD: usize = 5;

/// What the next bytes of a stream are.
#[derive(Clone, Copy)]
pub(crate) enum Prefix {
    /// A message of this kind, with a payload of this many bytes.
    Whole(Kind, usize),
    /// No message, and this is why.
    Wrong(StreamFault),
    /// Less than a message.
    Short,
}

/// What some bytes begin with.
pub(crate) fn prefix_of(side: Side, bytes: &[u8]) -> Prefix
    ensures { IsPrefixOfFrame side bytes.now result }
{
    if bytes.is_empty() {
        return Prefix::Short;
    }
    let Some(kind) = side.kind_at(bytes[0]) else {
        return Prefix::Wrong(StreamFault::BadKind);
    };
    if bytes.len() < HEAD {
        return Prefix::Short;
    }
    let length = length_in(bytes);
    match side.length_fault(kind, length) {
        Some(fault) => return Prefix::Wrong(fault),
        None => {}
    }
    let length = length as usize;
    if bytes.len() - HEAD < length {
        return Prefix::Short;
    }
    Prefix::Whole(kind, length)
}

/// The length of the payload, as a frame gives it.
fn length_in(bytes: &[u8]) -> u32
    requires { 5 ≤ length bytes.now }
    ensures { result ≡ from_be_bytes w32 (take 4 (drop 1 bytes.now)) }
{
    let mut length = [0; 4];
    length.copy_from_slice(&bytes[1..HEAD]);
    u32::from_be_bytes(length)
}
