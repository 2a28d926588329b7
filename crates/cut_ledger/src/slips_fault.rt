ghost use Rattle.std.specs.Prelude.{◌≡◌};
ghost use Rattle.cut_ledger.specs.FaultCode.{code_of_slips};

use cut_faults::FaultCode;
use std::alloc::AllocError;
use std::fmt;
use thiserror::Error;

/// Why a ledger was not made of slips. It is printed as its number, its name and the slip's number.
#[derive(Debug, Drop, Error)]
pub enum SlipsFault {
    /// Memory ran out.
    Memory,
    /// The slip of this number, from 1, is not of a piece of the plan, overlaps an earlier slip, or has impossible
    /// totals.
    BadSlip(u64),
}

impl SlipsFault {
    /// The fault in the program's list of faults.
    pub fn code(&self) -> FaultCode
        ensures { result ≡ code_of_slips self.now }
    {
        match self {
            SlipsFault::Memory => FaultCode::Memory,
            SlipsFault::BadSlip(_) => FaultCode::BadSlip,
        }
    }
}

impl fmt::Display for SlipsFault {
    ghost use Rattle.std.specs.Prelude.{Some};
    ghost use Rattle.cut_ledger.specs.FaultCode.{slips_fault_text};

    ghost output = { λ fault. Some (slips_fault_text fault) };

    fn fmt<W: fmt::Write>(&self, f: &mut fmt::Formatter<W>) -> fmt::Result {
        let code = self.code();
        match self {
            SlipsFault::BadSlip(number) => write!(f, "{code} {number}"),
            SlipsFault::Memory => write!(f, "{code}"),
        }
    }
}

impl From<AllocError> for SlipsFault {
    ghost use Rattle.cut_ledger.specs.declared.slips_fault.SlipsFault.TheVariants.{Memory};

    ghost from_gives = { λ _ e. e ≡ Memory };

    fn from(_refused: AllocError) -> SlipsFault {
        SlipsFault::Memory
    }
}
