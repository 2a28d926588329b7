use crate::Bytes;
use cut_faults::FaultCode;
use cut_outcome::{Piece, PieceResult};

/// An event of a run of a study.
#[derive(Debug, Drop)]
pub enum Event {
    /// A worker asks for the next piece.
    Draw,
    /// A worker hands in a result, of whichever piece and plan.
    HandIn(PieceResult),
    /// A worker hands in a result, and the disk fails in the append of its slip.
    HandInDiskFails(PieceResult),
    /// The piece of this number, counted from 0 in the division, is lost, as memory ran out.
    Lose(u64),
    /// The program ends, at whatever moment, and the study is resumed from its slips.
    CrashReopen {
        /// Whether the slip whose append was under way is found.
        keep: bool,
        /// The size of the pieces of the new division.
        size: u32,
    },
    /// A write to the wire takes at most this many of the bytes that are ready.
    Emit(u64),
    /// The same, and then the wire fails.
    WireFails(u64),
    /// The table is written from its beginning, on another wire.
    NewWire,
    /// Is the study done?
    Finish,
}

/// The answer of a run to an event.
#[derive(Debug, Drop)]
pub enum Reply {
    /// The next piece of the division.
    Piece(Piece),
    /// Every piece of the division is drawn.
    NoPiece,
    /// The result is taken.
    Accepted,
    /// The event is refused, for this reason.
    Refused(FaultCode),
    /// The piece counts as lost.
    Noted,
    /// The study is resumed.
    Opened,
    /// These bytes were written.
    Bytes(Bytes),
    /// The other wire is in use.
    Ready,
    /// The whole table is written.
    Done,
    /// Something is left to do.
    NotYet,
}
