ghost use Rattle.std.specs.Prelude.{◌≡◌};
ghost use Rattle.cut_journal.specs.FaultCode.{code_of_store};

use cut_faults::FaultCode;
use cut_ledger::SlipsFault;
use std::alloc::AllocError;
use std::fmt;
use thiserror::Error;

/// Why slips were not all stored in a journal: moved there, joined there, or run into it. It is printed as its number,
/// its name and the slip's number.
#[derive(Debug, Drop, PartialEq, Eq, Error)]
pub enum StoreFault {
    /// Memory ran out.
    Memory,
    /// The plan to be upgraded is not of version 1.
    NotVersion1,
    /// The slip of this number, from 1, is not of a piece of the plan, overlaps an earlier slip, or has impossible
    /// totals.
    BadSlip(u64),
    /// The journal is not of the plan of the slips, or of its upgrade.
    OtherPlan,
    /// The slip of this number, from 1, does not have the sums that its trials give.
    Disagrees(u64),
    /// Memory ran out for a piece, twice.
    WorkMemory,
    /// The journal's disk failed in an earlier append.
    Broken,
    /// A call of the journal's disk failed.
    Disk,
}

impl StoreFault {
    /// The fault in the program's list of faults.
    pub fn code(&self) -> FaultCode
        ensures { result ≡ code_of_store self.now }
    {
        match self {
            StoreFault::Memory => FaultCode::Memory,
            StoreFault::NotVersion1 => FaultCode::NotVersion1,
            StoreFault::BadSlip(_) => FaultCode::BadSlip,
            StoreFault::OtherPlan => FaultCode::OtherPlan,
            StoreFault::Disagrees(_) => FaultCode::Disagrees,
            StoreFault::WorkMemory => FaultCode::WorkMemory,
            StoreFault::Broken => FaultCode::Broken,
            StoreFault::Disk => FaultCode::Disk,
        }
    }
}

impl fmt::Display for StoreFault {
    ghost use Rattle.std.specs.Prelude.{Some};
    ghost use Rattle.cut_journal.specs.FaultCode.{store_fault_text};

    ghost output = { λ fault. Some (store_fault_text fault) };

    fn fmt<W: fmt::Write>(&self, f: &mut fmt::Formatter<W>) -> fmt::Result {
        let code = self.code();
        match self {
            StoreFault::BadSlip(number) | StoreFault::Disagrees(number) => write!(
                f,
                "{code} {number}"
            ),
            _ => write!(f, "{code}"),
        }
    }
}

impl From<AllocError> for StoreFault {
    ghost use Rattle.cut_journal.specs.declared.store_fault.StoreFault.TheVariants.{Memory};

    ghost from_gives = { λ _ e. e ≡ Memory };

    fn from(_refused: AllocError) -> StoreFault {
        StoreFault::Memory
    }
}

impl From<SlipsFault> for StoreFault {
    ghost use Rattle.cut_journal.specs.FaultCode.{fault_of_slips};

    ghost from_gives = { λ fault e. e ≡ fault_of_slips fault };

    fn from(fault: SlipsFault) -> StoreFault {
        match fault {
            SlipsFault::Memory => StoreFault::Memory,
            SlipsFault::BadSlip(number) => StoreFault::BadSlip(number),
        }
    }
}
