ghost use Rattle.std.specs.Prelude.{◌≡◌};
ghost use Rattle.cut_status.specs.FaultCode.{code_of};

use cut_faults::FaultCode;
use std::alloc::AllocError;
use std::fmt;
use thiserror::Error;

/// Why bytes have no status. Printed, it is its number, its name and the slip's number.
#[derive(Debug, Drop, PartialEq, Eq, Error)]
pub enum StatusFault {
    /// Memory ran out.
    Memory,
    /// They hold no study.
    NoStudy,
    /// The slip of this number, from 1, is not as it was written; 0 is the header.
    Damaged(u64),
    /// The slip of this number, from 1, is no piece, overlaps an earlier one, or has impossible totals.
    BadSlip(u64),
}

impl StatusFault {
    /// The fault in the program's list of faults.
    pub fn code(&self) -> FaultCode
        ensures { result ≡ code_of self.now }
    {
        match self {
            StatusFault::Memory => FaultCode::Memory,
            StatusFault::NoStudy => FaultCode::NoStudy,
            StatusFault::Damaged(_) => FaultCode::Damaged,
            StatusFault::BadSlip(_) => FaultCode::BadSlip,
        }
    }
}

impl fmt::Display for StatusFault {
    ghost use Rattle.std.specs.Prelude.{Some};
    ghost use Rattle.cut_status.specs.FaultCode.{fault_text};

    ghost output = { λ fault. Some (fault_text fault) };

    fn fmt<W: fmt::Write>(&self, f: &mut fmt::Formatter<W>) -> fmt::Result {
        let code = self.code();
        match self {
            StatusFault::Damaged(number) | StatusFault::BadSlip(number) => write!(
                f,
                "{code} {number}"
            ),
            _ => write!(f, "{code}"),
        }
    }
}

impl From<AllocError> for StatusFault {
    ghost use Rattle.cut_status.specs.declared.fault.StatusFault.TheVariants.{Memory};

    ghost from_gives = { λ _ e. e ≡ Memory };

    fn from(_refused: AllocError) -> StatusFault {
        StatusFault::Memory
    }
}
