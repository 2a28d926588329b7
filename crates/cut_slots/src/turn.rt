ghost use Rattle.std.specs.Prelude.{◌≡◌, ◌≤◌, IsErrOf};
ghost use Rattle.cut_board.specs.Names.{board_id, board_of, studies_of, view_of};
ghost use Rattle.cut_slots.specs.Turn.{next_after, DrawsPiece, TakesDrawn, CountsTrials, CountsAccepted};

use crate::slot::{CallFault, Slot};
use crate::{CallCounter, CallLedger, Pass};
use cut_board::{Board, Seat};
use cut_book::BookFault;
use cut_disks::Disk;
use cut_outcome::{Piece, PieceResult};

/// What a worker does after a turn.
#[derive(Clone, Copy)]
pub enum Next {
    /// With the next piece of the study.
    Piece,
    /// With another study, since this one's pieces are all drawn.
    Study,
    /// Not at all.
    Nothing,
}

/// A piece that was drawn: the number of its study, its own, and what it is.
#[derive(Clone, Copy)]
pub struct Drawn {
    /// The number of the study's slot.
    pub study: u32,
    /// The piece's number, from 0 in the study's division.
    pub number: u64,
    /// What it is.
    pub piece: Piece,
}

impl<D: Disk + Drop, K: CallLedger> Slot<D, K> {
    /// Hands the result of a drawn piece in to the slot's book, or returns how the worker goes on if it is not
    /// accepted. If it is, its trials are counted by the pass on the board. The call is counted as made by the pass
    /// and as kept by the slot; if there is no book, or no further call can be counted, nothing is done. If memory
    /// runs out for the result its call is taken back, and the piece is lost.
    pub fn take_and_count<M: CallLedger, C: CallCounter<M, K>>(
        &mut self,
        counter: &C,
        board: &Board,
        pass: &mut Pass<M>,
        drawn: Drawn,
        offered: &PieceResult,
    ) -> Result<(), Next>
        requires { pass.old.hall ≡ board_id board.now }
        ensures taken { TakesDrawn result drawn.number offered.now self.old.book self.new.book }
        ensures full { IsErrOf result Next.Nothing → C.may_be_full counter.now }
        ensures stays { (self.new.stopped ≡ self.old.stopped) × (self.new.given ≡ self.old.given) }
        ensures own { pass.new.hall ≡ pass.old.hall }
        ensures made { pass.old.made ≤ pass.new.made }
        ensures counted { CountsAccepted result (studies_of board.now) drawn.study drawn.piece.count
            pass.old.view pass.new.view }
    {
        let Pass { seat, made } = pass;
        let Slot { book, kept, .. } = self;
        let Some(book) = book else {
            return Err(Next::Piece);
        };
        if counter.count(made, kept).is_err() {
            return Err(Next::Nothing);
        }
        match book.hand_in(offered) {
            Ok(()) => {
                count_trials(board, seat, drawn);
                Ok(())
            }
            Err(BookFault::Memory) => {
                counter.take_back(made, kept);
                let noted = self.lose(counter, made, drawn.number);
                Err(next_after(noted))
            }
            Err(fault) => Err(next_after(Err(CallFault::Refused(fault)))),
        }
    }
}

/// Draws the next piece of the study that a slot has. Nothing is drawn if it has none yet, so that the study which
/// comes later has all its pieces, nor if its work was ended.
pub fn draw_in<D: Disk + Drop, K: CallLedger>(
    slot: &Slot<D, K>,
    board: &Board,
    seat: &mut Seat,
    study: u32,
) -> Result<Drawn, Next>
    requires { board_of seat.old ≡ board_id board.now }
    ensures own { board_of seat.new ≡ board_of seat.old }
    ensures draws { DrawsPiece result (studies_of board.now) study slot.now.book slot.now.stopped
        (view_of seat.old) (view_of seat.new) }
{
    if slot.is_stopped() {
        return Err(Next::Nothing);
    }
    if slot.is_idle() {
        return Err(Next::Study);
    }
    let Ok(number) = board.draw(seat, study) else {
        return Err(Next::Nothing);
    };
    match slot.piece(number) {
        Some(piece) => Ok(Drawn {
            study,
            number,
            piece,
        }),
        None => Err(Next::Study),
    }
}

/// Counts the trials of a piece on the board, unless its seat may count no more.
fn count_trials(board: &Board, seat: &mut Seat, drawn: Drawn)
    requires { board_of seat.old ≡ board_id board.now }
    ensures own { board_of seat.new ≡ board_of seat.old }
    ensures counts { CountsTrials (studies_of board.now) drawn.study drawn.piece.count
        (view_of seat.old) (view_of seat.new) }
{
    let trials = u64::from(drawn.piece.count);
    let _ = board.count(seat, drawn.study, trials);
}

/// How a worker goes on after a call of a study's book: only if no further call can be counted it ends, and a study
/// whose disk has failed takes no more, so it leaves that one.
pub fn next_after(outcome: Result<(), CallFault>) -> Next
    ensures { result ≡ next_after outcome }
{
    match outcome {
        Err(CallFault::Full) => Next::Nothing,
        Err(CallFault::Refused(BookFault::Checkpoint)) => Next::Study,
        _ => Next::Piece,
    }
}
