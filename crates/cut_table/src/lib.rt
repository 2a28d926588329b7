//! The table of a study, written from its ledger to a wire.
#![tactic(auto)]

mod fault;
mod table;

pub use cut_ledger::lines::header;
pub use cut_wires::{FaultyWire, MemoryWire, Sent, Wire, send_all};
pub use fault::{RowFault, TableFault};
pub use table::{emit_table, row};
