ghost use Rattle.std.specs.Prelude.{◌≡◌};
ghost use Rattle.cut_slots.specs.Faults.{code_of_line};

use cut_faults::FaultCode;
use std::fmt;
use thiserror::Error;

/// Why a hall gave no line of a study. It is printed as its number and its name.
#[derive(Clone, Copy, Debug, PartialEq, Eq, Error)]
pub enum NextRowFault {
    /// The slot has no book, or one of another plan or over other slips.
    AuditMismatch,
    /// The study's checkpoint failed.
    Checkpoint,
    /// Memory ran out, or a piece is lost.
    WorkMemory,
    /// The hall was stopped, or can count no more calls.
    Stopped,
}

impl NextRowFault {
    /// The fault in the program's list of faults.
    pub fn code(&self) -> FaultCode
        ensures { result ≡ code_of_line self.now }
    {
        match self {
            NextRowFault::AuditMismatch => FaultCode::AuditMismatch,
            NextRowFault::Checkpoint => FaultCode::Checkpoint,
            NextRowFault::WorkMemory => FaultCode::WorkMemory,
            NextRowFault::Stopped => FaultCode::Stopped,
        }
    }
}

impl fmt::Display for NextRowFault {
    ghost use Rattle.std.specs.Prelude.{Some};
    ghost use Rattle.cut_faults.specs.Codes.{code_text};
    ghost use Rattle.cut_slots.specs.Faults.{code_of_line};

    ghost output = { λ fault. Some (code_text (code_of_line fault)) };

    fn fmt<W: fmt::Write>(&self, f: &mut fmt::Formatter<W>) -> fmt::Result {
        let code = self.code();
        write!(f, "{code}")
    }
}
