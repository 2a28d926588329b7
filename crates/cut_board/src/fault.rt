//! Why a call of a board was refused.

use crate::{Board, Seat};
use cut_faults::FaultCode;
use std::fmt;
use thiserror::Error;

/// Why a call of a seat was refused. It is printed as its number and its name.
#[derive(Clone, Copy, Debug, PartialEq, Eq, Error)]
pub enum SeatFault {
    /// There is no study of this number.
    NoSlot,
    /// The seat would have drawn, or counted, more than 2^48.
    SeatFull,
}

impl SeatFault {
    ghost use Rattle.std.specs.Prelude.{◌≡◌};
    ghost use Rattle.cut_board.specs.FaultCode.{code_of_seat};

    /// The fault in the program's list of faults.
    pub fn code(&self) -> FaultCode
        ensures { result ≡ code_of_seat self.now }
    {
        match self {
            SeatFault::NoSlot => FaultCode::NoSlot,
            SeatFault::SeatFull => FaultCode::SeatFull,
        }
    }
}

impl fmt::Display for SeatFault {
    ghost use Rattle.std.specs.Prelude.{Some};
    ghost use Rattle.cut_faults.specs.Codes.{code_text};
    ghost use Rattle.cut_board.specs.FaultCode.{code_of_seat};

    ghost output = { λ fault. Some (code_text (code_of_seat fault)) };

    fn fmt<W: fmt::Write>(&self, f: &mut fmt::Formatter<W>) -> fmt::Result {
        let code = self.code();
        write!(f, "{code}")
    }
}

/// Why a board was not finished. It is printed as its number and its name.
#[derive(Debug, Drop, Error)]
pub enum Unfinished {
    /// Memory ran out. The board and its seats are gone.
    Memory,
    /// Fewer seats were brought than were made. The board and these seats come back.
    SeatMissing(Board, Vec<Seat>),
}

impl Unfinished {
    ghost use Rattle.std.specs.Prelude.{◌≡◌};
    ghost use Rattle.cut_board.specs.FaultCode.{code_of_unfinished};

    /// The fault in the program's list of faults.
    pub fn code(&self) -> FaultCode
        ensures { result ≡ code_of_unfinished self.now }
    {
        match self {
            Unfinished::Memory => FaultCode::Memory,
            Unfinished::SeatMissing(_, _) => FaultCode::SeatMissing,
        }
    }
}

impl fmt::Display for Unfinished {
    ghost use Rattle.std.specs.Prelude.{Some};
    ghost use Rattle.cut_faults.specs.Codes.{code_text};
    ghost use Rattle.cut_board.specs.FaultCode.{code_of_unfinished};

    ghost output = { λ fault. Some (code_text (code_of_unfinished fault)) };

    fn fmt<W: fmt::Write>(&self, f: &mut fmt::Formatter<W>) -> fmt::Result {
        let code = self.code();
        write!(f, "{code}")
    }
}
