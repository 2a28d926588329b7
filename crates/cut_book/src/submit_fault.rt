ghost use Rattle.std.specs.Prelude.{◌≡◌};
ghost use Rattle.cut_book.specs.Faults.{code_of_submit};

use crate::{BookFault, ShelfFault};
use cut_faults::FaultCode;
use cut_journal::JournalFault;
use std::alloc::AllocError;
use std::fmt;
use thiserror::Error;

/// Why a hall took no study. It is printed as its number and its name.
#[derive(Clone, Copy, Debug, PartialEq, Eq, Error)]
pub enum SubmitFault {
    /// Every slot has the study of another plan.
    SlotsFull,
    /// The study's disk could not be opened, or holds something else than the plan's study.
    Checkpoint,
    /// Memory ran out.
    WorkMemory,
}

impl SubmitFault {
    /// The fault in the program's list of faults.
    pub fn code(&self) -> FaultCode
        ensures { result ≡ code_of_submit self.now }
    {
        match self {
            SubmitFault::SlotsFull => FaultCode::SlotsFull,
            SubmitFault::Checkpoint => FaultCode::Checkpoint,
            SubmitFault::WorkMemory => FaultCode::WorkMemory,
        }
    }
}

impl fmt::Display for SubmitFault {
    ghost use Rattle.std.specs.Prelude.{Some};
    ghost use Rattle.cut_faults.specs.Codes.{code_text};
    ghost use Rattle.cut_book.specs.Faults.{code_of_submit};

    ghost output = { λ fault. Some (code_text (code_of_submit fault)) };

    fn fmt<W: fmt::Write>(&self, f: &mut fmt::Formatter<W>) -> fmt::Result {
        let code = self.code();
        write!(f, "{code}")
    }
}

impl From<AllocError> for SubmitFault {
    ghost use Rattle.cut_book.specs.declared.submit_fault.SubmitFault.TheVariants.{WorkMemory};

    ghost from_gives = { λ _ e. e ≡ WorkMemory };

    fn from(_refused: AllocError) -> SubmitFault {
        SubmitFault::WorkMemory
    }
}

impl From<ShelfFault> for SubmitFault {
    ghost use Rattle.cut_book.specs.Faults.{of_shelf};

    ghost from_gives = { λ fault e. e ≡ of_shelf fault };

    fn from(fault: ShelfFault) -> SubmitFault {
        match fault {
            ShelfFault::Memory => SubmitFault::WorkMemory,
            ShelfFault::Open => SubmitFault::Checkpoint,
        }
    }
}

impl From<JournalFault> for SubmitFault {
    ghost use Rattle.cut_book.specs.Faults.{of_journal};

    ghost from_gives = { λ fault e. e ≡ of_journal fault };

    fn from(fault: JournalFault) -> SubmitFault {
        match fault {
            JournalFault::Memory => SubmitFault::WorkMemory,
            _ => SubmitFault::Checkpoint,
        }
    }
}

impl From<BookFault> for SubmitFault {
    ghost use Rattle.cut_book.specs.Faults.{of_book};

    ghost from_gives = { λ fault e. e ≡ of_book fault };

    fn from(fault: BookFault) -> SubmitFault {
        match fault {
            BookFault::Memory => SubmitFault::WorkMemory,
            _ => SubmitFault::Checkpoint,
        }
    }
}
