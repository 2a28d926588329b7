//! The names by which each crate's callers know it: that they stand in the crate of their subject is seen as this is built.
//! Some of them live in a crate below it.

pub use cut_alerts::{Roles, alerts, is_alert};
pub use cut_board::{Board, BoardTotals, Seat};
pub use cut_detector::{Detector, Proposal, Step, replay};
pub use cut_draws::{Delivery, Draws};
pub use cut_journal::{Disk, FaultyDisk, FileDisk, Journal, JournalFault, MemoryDisk, Tear};
pub use cut_ledger::{Base, Event, Ledger, Reply, Run, Slip};
pub use cut_plan::{Cell, Plan, PlanFault};
pub use cut_pool::{
    Book, Done, Gate, Hall, NoShelf, OpenGate, Opened, Pass, Report, RunFault, Shelf, ShelfFault,
    run_study,
};
pub use cut_rings::{Edge, Rings};
pub use cut_session::{Fed, Reader, SessionEnd, ask, session};
pub use cut_table::{FaultyWire, MemoryWire, Sent, Wire, emit_table, header, row, send_all};
pub use cut_trial::{
    Ballot, Piece, PieceResult, Totals, Verdict, quorum, run_piece, run_trial, verdict,
};
