ghost use Rattle.std.specs.Prelude.{◌≡◌};
ghost use Rattle.cut_alerts.specs.Faults.{code_of};

use cut_faults::FaultCode;
use std::alloc::AllocError;
use std::fmt;
use thiserror::Error;

/// Why roles can't be assigned as asked. It is printed as its number and its name.
#[derive(Debug, Drop, Error)]
pub enum RolesFault {
    /// Memory ran out.
    Memory,
    /// A process is out of range or named twice among targets, liars and link sources, or a link's ends are the same
    /// process.
    BadRole,
}

impl RolesFault {
    /// The fault in the program's list of faults.
    pub fn code(&self) -> FaultCode
        ensures { result ≡ code_of self.now }
    {
        match self {
            RolesFault::Memory => FaultCode::Memory,
            RolesFault::BadRole => FaultCode::BadRole,
        }
    }
}

impl fmt::Display for RolesFault {
    ghost use Rattle.std.specs.Prelude.{Some};
    ghost use Rattle.cut_faults.specs.Codes.{code_text};
    ghost use Rattle.cut_alerts.specs.Faults.{code_of};

    ghost output = { λ fault. Some (code_text (code_of fault)) };

    fn fmt<W: fmt::Write>(&self, f: &mut fmt::Formatter<W>) -> fmt::Result {
        write!(f, "{}", self.code())
    }
}

impl From<AllocError> for RolesFault {
    ghost use Rattle.cut_alerts.specs.declared.fault.RolesFault.TheVariants.{Memory};

    ghost from_gives = { λ _ e. e ≡ Memory };

    fn from(_refused: AllocError) -> RolesFault {
        RolesFault::Memory
    }
}
