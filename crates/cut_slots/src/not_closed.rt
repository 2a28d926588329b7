ghost use Rattle.std.specs.Prelude.{◌≡◌};
ghost use Rattle.cut_slots.specs.Report.{AcceptedOther};

use crate::Report;
use cut_faults::FaultCode;

/// A study of which the passes counted another number of trials than its history accepted.
#[derive(Drop)]
pub struct Mismatch {
    /// The number of its slot.
    pub study: u32,
    /// What the passes counted.
    pub counted: u64,
    /// What became of all slots.
    pub report: Report,
    pub ghost differ: { AcceptedOther report study counted },
}

/// Why a hall was not closed, with what comes back.
#[derive(Drop)]
pub enum NotClosed<T> {
    /// Memory ran out. The hall and its passes are gone.
    Memory,
    /// The counts of a study differ. The hall and its passes are gone.
    AuditMismatch(Mismatch),
    /// Fewer passes were brought than were made. The hall and these passes come back.
    SeatMissing(T),
}

impl<T> NotClosed<T> {
    ghost use Rattle.cut_slots.specs.Faults.{code_of_not_closed};

    /// The fault in the program's list of faults.
    pub fn code(&self) -> FaultCode
        ensures { result ≡ code_of_not_closed self.now }
    {
        match self {
            NotClosed::Memory => FaultCode::WorkMemory,
            NotClosed::AuditMismatch(_) => FaultCode::AuditMismatch,
            NotClosed::SeatMissing(_) => FaultCode::SeatMissing,
        }
    }
}
