ghost use Rattle.std.specs.Prelude.{◌≡◌};
ghost use Rattle.cut_journal.specs.FaultCode.{code_of};

use cut_disks::DiskFault;
use cut_faults::FaultCode;
use std::alloc::AllocError;
use std::fmt;
use thiserror::Error;

/// Why a journal was not opened, or did not take a slip. It is printed as its number, its name and the slip's number.
#[derive(Debug, Drop, PartialEq, Eq, Error)]
pub enum JournalFault {
    /// Memory ran out.
    Memory,
    /// A call of the disk failed.
    Disk,
    /// The disk failed in an earlier append. What is on it is known again once it is reopened.
    Broken,
    /// The disk holds no study.
    NoStudy,
    /// The study, or the result, is of another plan.
    OtherPlan,
    /// The slip of this number, from 1, is not as it was written; 0 is the header.
    Damaged(u64),
    /// The disk holds a study already.
    Held,
}

impl JournalFault {
    /// The fault in the program's list of faults.
    pub fn code(&self) -> FaultCode
        ensures { result ≡ code_of self.now }
    {
        match self {
            JournalFault::Memory => FaultCode::Memory,
            JournalFault::Disk => FaultCode::Disk,
            JournalFault::Broken => FaultCode::Broken,
            JournalFault::NoStudy => FaultCode::NoStudy,
            JournalFault::OtherPlan => FaultCode::OtherPlan,
            JournalFault::Damaged(_) => FaultCode::Damaged,
            JournalFault::Held => FaultCode::Held,
        }
    }
}

impl fmt::Display for JournalFault {
    ghost use Rattle.std.specs.Prelude.{Some};
    ghost use Rattle.cut_journal.specs.FaultCode.{fault_text};

    ghost output = { λ fault. Some (fault_text fault) };

    fn fmt<W: fmt::Write>(&self, f: &mut fmt::Formatter<W>) -> fmt::Result {
        let code = self.code();
        match self {
            JournalFault::Damaged(number) => write!(f, "{code} {number}"),
            _ => write!(f, "{code}"),
        }
    }
}

impl From<AllocError> for JournalFault {
    ghost use Rattle.cut_journal.specs.declared.fault.JournalFault.TheVariants.{Memory};

    ghost from_gives = { λ _ e. e ≡ Memory };

    fn from(_refused: AllocError) -> JournalFault {
        JournalFault::Memory
    }
}

impl From<DiskFault> for JournalFault {
    ghost use Rattle.cut_journal.specs.declared.fault.JournalFault.TheVariants.{Disk};

    ghost from_gives = { λ _ e. e ≡ Disk };

    fn from(_failed: DiskFault) -> JournalFault {
        JournalFault::Disk
    }
}
