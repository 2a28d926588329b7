ghost use Rattle.std.specs.Prelude.{◌≡◌, ◌==◌};
ghost use Rattle.std.specs.List.{find};
ghost use Rattle.cut_messages.specs.Kinds.{byte_of, kind_at, length_of};
ghost use Rattle.cut_messages.specs.Frames.{length_fault};

use crate::{Kind, StreamFault};

/// The most bytes that a payload has.
pub(crate) const LONGEST_PAYLOAD: u32 = 65_536;

/// Which way messages go.
#[derive(Clone, Copy, Debug, PartialEq, Eq)]
pub enum Side {
    /// From a client to a server.
    Requests,
    /// From a server to a client.
    Replies,
}

impl Side {
    /// The kind of a message that goes this way and begins with this byte, if there is one.
    pub fn kind_at(self, byte: u8) -> Option<Kind>
        ensures { result ≡ kind_at self byte }
    {
        match self {
            Side::Requests => kind_among(&[Kind::Submit, Kind::Count, Kind::Quit], byte),
            Side::Replies => kind_among(&[Kind::Row, Kind::Done, Kind::Count, Kind::Fault], byte),
        }
    }

    /// The length of the payloads of a kind, if they all have one.
    fn length_of(self, kind: Kind) -> Option<u32>
        ensures { result ≡ length_of self kind }
    {
        match kind {
            Kind::Submit | Kind::Row => None,
            Kind::Quit | Kind::Done => Some(0),
            Kind::Fault => Some(2),
            Kind::Count => match self {
                Side::Requests => Some(4),
                Side::Replies => Some(8),
            },
        }
    }

    /// What is wrong with the length of a payload of this kind.
    pub(crate) fn length_fault(self, kind: Kind, length: u32) -> Option<StreamFault>
        ensures { result ≡ length_fault (length_of self kind) length }
    {
        if length > LONGEST_PAYLOAD {
            return Some(StreamFault::TooLong);
        }
        match self.length_of(kind) {
            Some(right) if length != right => Some(StreamFault::BadLength),
            _ => None,
        }
    }
}

/// The kind among these that a byte stands for.
fn kind_among(kinds: &[Kind], byte: u8) -> Option<Kind>
    ensures { result ≡ find (λ kind. byte_of kind == byte) kinds.now }
{
    kinds.iter().copied().find(|kind| kind.byte() == byte)
}
