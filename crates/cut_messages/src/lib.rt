//! Messages between a client and a server of studies: their frames, a reader of a stream of them, and a client that
//! asks for one table.
//!
//! A message is a [`Kind`] and a [`Payload`]. On a wire it is a frame: a byte for the kind, the payload's length in
//! four bytes, high byte first, and the payload. A [`Reader`] takes a stream in pieces of any size, returns the
//! complete messages, and reports what is wrong where a message should begin: a byte that is not a kind of that side, a
//! length above 65,536, or a length that is wrong for the kind, in that order. [`laws`] say that a stream has one
//! reading.
//!
//! [`send_message`] sends one message by a counting writer, [`FramedRows`] frames the rows of a table, and [`ask`]
//! sends a plan and writes the lines of the answer. What they say of the bytes on their wires holds if the wire's log
//! has them; that a failed read or write is reported only where one failed holds over every wire.
#![tactic(auto)]

mod client;
mod fault;
mod fed;
mod frame;
mod kind;
pub mod laws;
mod message;
mod payload;
mod prefix;
mod reader;
mod replies;
mod side;
mod split;

pub use client::ask;
pub use fault::{AskFault, EndFault, StreamFault};
pub use fed::Fed;
pub use frame::{FramedRows, send_message};
pub use kind::Kind;
pub use message::Message;
pub use payload::Payload;
pub use reader::Reader;
pub use side::Side;
