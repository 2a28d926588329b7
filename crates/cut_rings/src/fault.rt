ghost use Rattle.std.specs.Prelude.{◌≡◌};
ghost use Rattle.cut_rings.specs.Faults.{code_of};

use cut_faults::FaultCode;
use std::alloc::AllocError;
use std::fmt;
use thiserror::Error;

/// Why lists are not rings. It is printed as its number and its name.
#[derive(Debug, Drop, Error)]
pub enum RingsFault {
    /// Memory ran out.
    Memory,
    /// A list does not hold each process once.
    NotPermutation,
    /// There are fewer than 2 processes, or there is no list.
    TooFew,
}

impl RingsFault {
    /// The fault in the program's list of faults.
    pub fn code(&self) -> FaultCode
        ensures { result ≡ code_of self.now }
    {
        match self {
            RingsFault::Memory => FaultCode::Memory,
            RingsFault::NotPermutation => FaultCode::NotPermutation,
            RingsFault::TooFew => FaultCode::TooFew,
        }
    }
}

impl fmt::Display for RingsFault {
    ghost use Rattle.std.specs.Prelude.{Some};
    ghost use Rattle.cut_faults.specs.Codes.{code_text};
    ghost use Rattle.cut_rings.specs.Faults.{code_of};

    ghost output = { λ fault. Some (code_text (code_of fault)) };

    fn fmt<W: fmt::Write>(&self, f: &mut fmt::Formatter<W>) -> fmt::Result {
        write!(f, "{}", self.code())
    }
}

impl From<AllocError> for RingsFault {
    ghost use Rattle.cut_rings.specs.declared.fault.RingsFault.TheVariants.{Memory};

    ghost from_gives = { λ _ e. e ≡ Memory };

    fn from(_refused: AllocError) -> RingsFault {
        RingsFault::Memory
    }
}
