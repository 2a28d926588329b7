//! Wires: devices from which bytes are read and to which bytes are written.
//!
//! A [`Wire`] fails at a call now and then, and counts those calls. Contracts see its log: what passed over it, if that
//! is known, and how many of its calls failed. [`MemoryWire`] and [`FaultyWire`] are wires in memory, and
//! [`StreamWire`] makes one of a reader and a writer. [`send_all`] writes all of some bytes, and a [`CountingWriter`]
//! counts the bytes that it sends; [`send_rows`] sends a table over it, row by row.
#![tactic(auto)]

mod counting_writer;
mod faulty_wire;
mod memory_wire;
mod rows;
mod send;
mod stream_wire;
mod wire;

pub use counting_writer::CountingWriter;
pub use faulty_wire::FaultyWire;
pub use memory_wire::MemoryWire;
pub use rows::{Encoding, LONGEST_ROW, PlainRows, RowSource, RowsFault, send_rows};
pub use send::{Sent, send_all};
pub use stream_wire::StreamWire;
pub use wire::{Wire, WireFault};
