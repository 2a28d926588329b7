ghost use Rattle.std.specs.Prelude.{◌≡◌};
ghost use Rattle.cut_book.specs.Faults.{code_of};

use cut_faults::FaultCode;
use cut_ledger::SlipsFault;
use cut_table::RowFault;
use std::alloc::AllocError;
use std::fmt;
use thiserror::Error;

/// Why a book was not opened, or refused a call. It is printed as its number, its name, and the number of the slip or
/// of the cell.
#[derive(Debug, Drop, Error)]
pub enum BookFault {
    /// Memory ran out.
    Memory,
    /// There is no piece of this number, or it is lost already.
    BadPiece,
    /// The result is of another plan.
    Stranger,
    /// A trial of the result is held already.
    Overlap,
    /// The slip of this number, from 1, is not of a piece of the plan, overlaps an earlier slip, or has impossible
    /// totals.
    BadSlip(u64),
    /// Not every trial of this cell is held.
    NotDone(u32),
    /// The disk failed in the append of a slip, now or earlier.
    Checkpoint,
}

impl BookFault {
    /// The fault in the program's list of faults.
    pub fn code(&self) -> FaultCode
        ensures { result ≡ code_of self.now }
    {
        match self {
            BookFault::Memory => FaultCode::Memory,
            BookFault::BadPiece => FaultCode::BadPiece,
            BookFault::Stranger => FaultCode::Stranger,
            BookFault::Overlap => FaultCode::Overlap,
            BookFault::BadSlip(_) => FaultCode::BadSlip,
            BookFault::NotDone(_) => FaultCode::NotDone,
            BookFault::Checkpoint => FaultCode::Checkpoint,
        }
    }
}

impl fmt::Display for BookFault {
    ghost use Rattle.std.specs.Prelude.{Some};
    ghost use Rattle.cut_book.specs.Faults.{fault_text};

    ghost output = { λ fault. Some (fault_text fault) };

    fn fmt<W: fmt::Write>(&self, f: &mut fmt::Formatter<W>) -> fmt::Result {
        let code = self.code();
        match self {
            BookFault::BadSlip(number) => write!(f, "{code} {number}"),
            BookFault::NotDone(cell) => write!(f, "{code} {cell}"),
            _ => write!(f, "{code}"),
        }
    }
}

impl From<AllocError> for BookFault {
    ghost use Rattle.cut_book.specs.declared.fault.BookFault.TheVariants.{Memory};

    ghost from_gives = { λ _ e. e ≡ Memory };

    fn from(_refused: AllocError) -> BookFault {
        BookFault::Memory
    }
}

impl From<SlipsFault> for BookFault {
    ghost use Rattle.cut_book.specs.Faults.{of_slips};

    ghost from_gives = { λ fault e. e ≡ of_slips fault };

    fn from(fault: SlipsFault) -> BookFault {
        match fault {
            SlipsFault::Memory => BookFault::Memory,
            SlipsFault::BadSlip(number) => BookFault::BadSlip(number),
        }
    }
}

impl From<RowFault> for BookFault {
    ghost use Rattle.cut_book.specs.Faults.{of_row};

    ghost from_gives = { λ fault e. e ≡ of_row fault };

    fn from(fault: RowFault) -> BookFault {
        match fault {
            RowFault::Memory => BookFault::Memory,
            RowFault::NotDone(cell) => BookFault::NotDone(cell),
        }
    }
}
