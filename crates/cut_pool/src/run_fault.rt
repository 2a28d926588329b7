ghost use Rattle.std.specs.Prelude.{◌≡◌};
ghost use Rattle.cut_pool.specs.Faults.{code_of_run};

use cut_book::BookFault;
use cut_faults::FaultCode;
use cut_wires::Sent;
use std::alloc::AllocError;
use std::fmt;
use thiserror::Error;

/// Why a study was not run to its end. It is printed as its number, its name, and the number of the slip or of the
/// bytes sent.
#[derive(Clone, Copy, Debug, PartialEq, Eq, Error)]
pub enum RunFault {
    /// The slip of this number, from 1, is not of a piece of the plan, overlaps an earlier slip, or has impossible
    /// totals.
    BadSlip(u64),
    /// The disk failed in the append of a slip.
    Checkpoint,
    /// A write of the wire failed.
    Write(Sent),
    /// Memory ran out.
    WorkMemory,
    /// The board's count and the trials that the book's history accepted differ, trials are missing though all lines
    /// are there, or no more calls could be counted.
    AuditMismatch,
}

impl RunFault {
    /// The fault in the program's list of faults.
    pub fn code(&self) -> FaultCode
        ensures { result ≡ code_of_run self.now }
    {
        match self {
            RunFault::BadSlip(_) => FaultCode::BadSlip,
            RunFault::Checkpoint => FaultCode::Checkpoint,
            RunFault::Write(_) => FaultCode::Write,
            RunFault::WorkMemory => FaultCode::WorkMemory,
            RunFault::AuditMismatch => FaultCode::AuditMismatch,
        }
    }
}

impl fmt::Display for RunFault {
    ghost use Rattle.std.specs.Prelude.{Some};
    ghost use Rattle.cut_pool.specs.Faults.{run_fault_text};

    ghost output = { λ fault. Some (run_fault_text fault) };

    fn fmt<W: fmt::Write>(&self, f: &mut fmt::Formatter<W>) -> fmt::Result {
        let code = self.code();
        match self {
            RunFault::BadSlip(number) | RunFault::Write(Sent { sent: number }) => {
                write!(f, "{code} {number}")
            }
            _ => write!(f, "{code}"),
        }
    }
}

impl From<AllocError> for RunFault {
    ghost use Rattle.cut_pool.specs.declared.run_fault.RunFault.TheVariants.{WorkMemory};

    ghost from_gives = { λ _ e. e ≡ WorkMemory };

    fn from(_refused: AllocError) -> RunFault {
        RunFault::WorkMemory
    }
}

/// What a book reports at its opening: the first bad slip, or that memory ran out.
impl From<BookFault> for RunFault {
    ghost use Rattle.cut_pool.specs.Faults.{of_opening};

    ghost from_gives = { λ fault e. e ≡ of_opening fault };

    fn from(fault: BookFault) -> RunFault {
        match fault {
            BookFault::BadSlip(number) => RunFault::BadSlip(number),
            _ => RunFault::WorkMemory,
        }
    }
}
