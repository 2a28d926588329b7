ghost use Rattle.std.specs.Prelude.{◌≡◌};
ghost use Rattle.cut_ledger.specs.FaultCode.{code_of};

use cut_faults::FaultCode;
use std::alloc::AllocError;
use std::fmt;
use thiserror::Error;

/// Why a ledger did not take a result. It is printed as its number and its name.
#[derive(Debug, Drop, Error)]
pub enum OfferFault {
    /// Memory ran out.
    Memory,
    /// The result is of another plan.
    Stranger,
    /// A trial of the result is held already.
    Overlap,
}

impl OfferFault {
    /// The fault in the program's list of faults.
    pub fn code(&self) -> FaultCode
        ensures { result ≡ code_of self.now }
    {
        match self {
            OfferFault::Memory => FaultCode::Memory,
            OfferFault::Stranger => FaultCode::Stranger,
            OfferFault::Overlap => FaultCode::Overlap,
        }
    }
}

impl fmt::Display for OfferFault {
    ghost use Rattle.std.specs.Prelude.{Some};
    ghost use Rattle.cut_faults.specs.Codes.{code_text};
    ghost use Rattle.cut_ledger.specs.FaultCode.{code_of};

    ghost output = { λ fault. Some (code_text (code_of fault)) };

    fn fmt<W: fmt::Write>(&self, f: &mut fmt::Formatter<W>) -> fmt::Result {
        let code = self.code();
        write!(f, "{code}")
    }
}

impl From<AllocError> for OfferFault {
    ghost use Rattle.cut_ledger.specs.declared.offer_fault.OfferFault.TheVariants.{Memory};

    ghost from_gives = { λ _ e. e ≡ Memory };

    fn from(_refused: AllocError) -> OfferFault {
        OfferFault::Memory
    }
}
