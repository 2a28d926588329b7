ghost use Rattle.std.specs.Prelude.{◌≡◌};
ghost use Rattle.cut_trial.specs.FaultCode.{code_of};
ghost use Rattle.cut_trial.specs.declared.fault.TrialFault.TheVariants.{Memory};

use cut_faults::FaultCode;
use std::alloc::AllocError;
use std::fmt;
use thiserror::Error;

/// Why a piece of a study can't be run. Printed, it is its number and its name.
#[derive(Debug, Drop, Error)]
pub enum TrialFault {
    /// Memory ran out.
    Memory,
    /// The piece is empty, goes past the last trial, or lies in two cells.
    BadPiece,
}

impl TrialFault {
    /// The fault in the program's list of faults.
    pub fn code(&self) -> FaultCode
        ensures { result ≡ code_of self.now }
    {
        match self {
            TrialFault::Memory => FaultCode::Memory,
            TrialFault::BadPiece => FaultCode::BadPiece,
        }
    }
}

impl fmt::Display for TrialFault {
    ghost use Rattle.std.specs.Prelude.{Some};
    ghost use Rattle.cut_faults.specs.Codes.{code_text};

    ghost output = { λ fault. Some (code_text (code_of fault)) };

    fn fmt<W: fmt::Write>(&self, f: &mut fmt::Formatter<W>) -> fmt::Result {
        write!(f, "{}", self.code())
    }
}

impl From<AllocError> for TrialFault {
    ghost from_gives = { λ _ e. e ≡ Memory };

    fn from(_error: AllocError) -> TrialFault {
        TrialFault::Memory
    }
}
