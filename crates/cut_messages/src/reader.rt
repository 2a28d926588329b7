ghost use Rattle.std.specs.Prelude.{◌≡◌, ◌++◌, ◌≤◌, [], List, ℕ, length, drop, Some, IfOk, OnErr};
ghost use Rattle.cut_messages.specs.declared.message.Message.{Message};
ghost use Rattle.cut_messages.specs.declared.fault.StreamFault.{StreamFault};
ghost use Rattle.cut_messages.specs.Reading.{fresh, HasReadFrames, end_of};

use crate::split::messages_in;
use crate::{EndFault, Fed, Side, StreamFault};
use std::alloc::{AllocError, Global};
use std::marker::Model;

/// A reader of a stream of messages, which gets the stream piece by piece.
#[derive(Debug, Drop)]
pub struct Reader {
    side: Side,
    held: Vec<u8>,
    fault: Option<StreamFault>,
}

impl Model for Reader {
    ghost use Rattle.std.specs.Prelude.{◌≤◌, length};
    ghost use Rattle.cut_messages.specs.Reading.{Reading};

    ghost Value = { Reading };

    ghost view = { λ r. record { side = r.side; held = r.held.items; fault = r.fault } };

    ghost invariant = { λ r. length r.held.items ≤ 65540 };
}

impl Reader {
    /// A reader of what a client sends. This takes no memory.
    pub fn requests(alloc: Global) -> Reader
        ensures value { result ≡ fresh Side.Requests }
        ensures nothing { HasReadFrames result [] [] }
    {
        Reader::of(alloc, Side::Requests)
    }

    /// A reader of what a server answers. This takes no memory.
    pub fn replies(alloc: Global) -> Reader
        ensures value { result ≡ fresh Side.Replies }
        ensures nothing { HasReadFrames result [] [] }
    {
        Reader::of(alloc, Side::Replies)
    }

    /// A reader of nothing yet.
    fn of(alloc: Global, side: Side) -> Reader
        ensures value { result ≡ fresh side }
        ensures nothing { HasReadFrames result [] [] }
    {
        Reader {
            side,
            held: Vec::new(alloc),
            fault: None,
        }
    }

    /// Reads the next piece of the stream. Returns the messages that it completes, and the fault after them, if there
    /// is one. After a fault each later piece returns that fault and no message. Between two pieces at most 65,540
    /// bytes are held. If memory runs out, nothing of the piece is read.
    pub fn feed(&mut self, alloc: Global, piece: &[u8]) -> Result<Fed, AllocError>
        ensures reads { (stream : List ℕ) (messages : List Message) →
            HasReadFrames self.old stream messages → IfOk result
            (λ fed. HasReadFrames self.new (stream ++ piece.now) (messages ++ fed.messages.items)) }
        ensures fault { IfOk result (λ fed. fed.fault ≡ self.new.fault) }
        ensures stays { (fault : StreamFault) → self.old.fault ≡ Some fault →
            IfOk result (λ fed. (fed.messages.items ≡ []) × (self.new ≡ self.old)) }
        ensures side { self.new.side ≡ self.old.side }
        ensures bound { length self.new.held ≤ 65540 }
        ensures err { OnErr result (self.new ≡ self.old) }
    {
        if self.fault.is_some() {
            return Ok(Fed {
                messages: Vec::new(alloc),
                fault: self.fault,
            });
        }
        let before = self.held.len();
        self.held.extend_from_slice(piece)?;
        let split = match messages_in(alloc, self.side, self.held.as_slice()) {
            Ok(split) => split,
            Err(refused) => {
                self.held.truncate(before);
                return Err(refused);
            }
        };
        self.fault = split.fault;
        match split.fault {
            Some(_) => self.held.clear(),
            None => drop_prefix(&mut self.held, split.read),
        }
        Ok(Fed {
            messages: split.messages,
            fault: split.fault,
        })
    }

    /// Whether the stream may end here: not after a fault, and not inside a message.
    pub fn finish(&self) -> Result<(), EndFault>
        ensures { result ≡ end_of self.now.fault self.now.held }
    {
        match self.fault {
            Some(fault) => Err(EndFault::Stream(fault)),
            None if self.held.is_empty() => Ok(()),
            None => Err(EndFault::Truncated),
        }
    }
}

/// Drops the first bytes.
fn drop_prefix(bytes: &mut Vec<u8>, count: usize)
    requires { count ≤ length bytes.old.items }
    ensures { bytes.new.items ≡ drop count bytes.old.items }
{
    bytes.drain(..count);
}
