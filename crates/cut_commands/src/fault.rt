ghost use Rattle.std.specs.Prelude.{◌≡◌, ◌≤◌, ◌++◌, ◌∷◌, length};
ghost use Rattle.std.specs.Fmt.{decimal};
ghost use Rattle.cut_commands.specs.Faults.{code_of, name_of, number_of, status_of, fault_text, field_words};

use arrayvec::ArrayString;
use cut_faults::{FaultCode, status_of_number};
use cut_files::OpenFault;
use cut_journal::{JournalFault, StoreFault};
use cut_messages::AskFault;
use cut_plan::{Field, PlanFault, Refusal};
use cut_pool::RunFault;
use cut_status::StatusFault;
use cut_wires::Sent;
use itoa::Buffer;
use std::alloc::AllocError;
use std::fmt;
use thiserror::Error;

/// The text of a fault, or its line, kept in the value itself.
pub type FaultText = ArrayString<64>;

/// Why a command of the program ended without its answer. It is printed as the line that the program writes on standard
/// error.
#[derive(Debug, Drop, Error)]
pub enum CliFault {
    /// Memory ran out.
    Memory,
    /// The text that was read is not an accepted plan.
    Plan(Refusal),
    /// A read of the plan failed.
    Read,
    /// A socket was not connected to, not bound, or gave no connection.
    Socket,
    /// A server that was asked for a table gave none.
    Asked(AskFault),
    /// A write of the answer failed.
    Write(Sent),
    /// The checkpoint was not opened.
    Journal(JournalFault),
    /// The folder of the checkpoints is not a folder.
    Folder,
    /// The slip of this number in the checkpoint, from 1, is not a slip of the plan.
    BadSlip(u64),
    /// The slips of checkpoints were not all stored in another one.
    Store(StoreFault),
    /// The checkpoint took no more.
    Checkpoint,
    /// A running study got no more memory.
    WorkMemory,
    /// A study's count and the trials that it accepted differ, or it could count no more calls.
    AuditMismatch,
}

impl CliFault {
    /// The fault's number in the program's list of faults, or one that a server reported and the list lacks.
    pub fn number(&self) -> u16
        ensures { result ≡ number_of self.now }
    {
        let code = match self {
            CliFault::Asked(fault) => return fault.number(),
            CliFault::Memory => FaultCode::Memory,
            CliFault::Plan(refusal) => refusal.code(),
            CliFault::Read | CliFault::Socket => FaultCode::Read,
            CliFault::Write(_) => FaultCode::Write,
            CliFault::Journal(fault) => fault.code(),
            CliFault::Folder => FaultCode::Disk,
            CliFault::BadSlip(_) => FaultCode::BadSlip,
            CliFault::Store(fault) => fault.code(),
            CliFault::Checkpoint => FaultCode::Checkpoint,
            CliFault::WorkMemory => FaultCode::WorkMemory,
            CliFault::AuditMismatch => FaultCode::AuditMismatch,
        };
        code.number()
    }

    /// The fault in that list, if it is there.
    pub fn code(&self) -> Option<FaultCode>
        ensures { result ≡ code_of self.now }
    {
        FaultCode::of_number(self.number())
    }

    /// The fault's name, `Unknown` where the list lacks it.
    pub fn name(&self) -> &'static str
        ensures name { result.now ≡ name_of self.now }
        ensures short { length result.now ≤ 16 }
    {
        match self.code() {
            Some(code) => code.name(),
            None => "Unknown",
        }
    }

    /// The status with which the program ends: 3 if a plan is refused, 5 if memory ran out, and 4 at any other fault.
    pub fn status(&self) -> u8
        ensures { result ≡ status_of self.now }
    {
        status_of_number(self.number())
    }

    /// The fault as it is printed: its number, its name and what it carries. This takes no memory.
    pub fn text(&self) -> FaultText
        ensures text { result.bytes ≡ fault_text self.now }
        ensures short { length result.bytes ≤ 58 }
    {
        let mut digits = Buffer::new();
        let mut text = FaultText::new();
        text.push_str("cutlab: fault ");
        text.push_str(digits.format(self.number()));
        text.push_str(" ");
        text.push_str(self.name());
        match self {
            CliFault::Plan(refusal) => push_field(&mut text, refusal.field()),
            CliFault::Write(Sent { sent: number })
            | CliFault::BadSlip(number)
            | CliFault::Store(StoreFault::BadSlip(number) | StoreFault::Disagrees(number))
            | CliFault::Journal(JournalFault::Damaged(number)) => push_number(&mut text, *number),
            CliFault::Memory
            | CliFault::Read
            | CliFault::Socket
            | CliFault::Asked(_)
            | CliFault::Journal(_)
            | CliFault::Store(_)
            | CliFault::Folder
            | CliFault::Checkpoint
            | CliFault::WorkMemory
            | CliFault::AuditMismatch => {}
        }
        text
    }
}

/// Adds a blank and the field that a refusal carries, if it carries one.
fn push_field(text: &mut FaultText, field: Option<Field>)
    requires { length text.old.bytes ≤ 37 }
    ensures text { text.new.bytes ≡ text.old.bytes ++ field_words field }
    ensures short { length text.new.bytes ≤ 58 }
{
    if let Some(field) = field {
        text.push_str(" ");
        text.push_str(field.name());
    }
}

/// Adds a blank and a number in decimal.
fn push_number(text: &mut FaultText, number: u64)
    requires { length text.old.bytes ≤ 37 }
    ensures text { text.new.bytes ≡ text.old.bytes ++ 32 ∷ decimal number }
    ensures short { length text.new.bytes ≤ 58 }
{
    let mut digits = Buffer::new();
    text.push_str(" ");
    text.push_str(digits.format(number));
}

impl fmt::Display for CliFault {
    ghost use Rattle.std.specs.Prelude.{Some};
    ghost use Rattle.cut_commands.specs.Faults.{fault_text};

    ghost output = { λ fault. Some (fault_text fault) };

    fn fmt<W: fmt::Write>(&self, f: &mut fmt::Formatter<W>) -> fmt::Result {
        f.write_str(self.text().as_str())
    }
}

impl From<AllocError> for CliFault {
    ghost use Rattle.std.specs.Prelude.{◌≡◌};
    ghost use Rattle.cut_commands.specs.declared.fault.CliFault.TheVariants.{Memory};

    ghost from_gives = { λ _ e. e ≡ Memory };

    fn from(_error: AllocError) -> CliFault {
        CliFault::Memory
    }
}

impl From<PlanFault> for CliFault {
    ghost use Rattle.std.specs.Prelude.{◌≡◌};
    ghost use Rattle.cut_commands.specs.Faults.{fault_of_plan};

    ghost from_gives = { λ fault e. e ≡ fault_of_plan fault };

    fn from(fault: PlanFault) -> CliFault {
        match fault {
            PlanFault::Memory => CliFault::Memory,
            PlanFault::Refused(refusal) => CliFault::Plan(refusal),
        }
    }
}

impl From<JournalFault> for CliFault {
    ghost use Rattle.std.specs.Prelude.{◌≡◌};
    ghost use Rattle.cut_commands.specs.Faults.{fault_of_journal};

    ghost from_gives = { λ fault e. e ≡ fault_of_journal fault };

    fn from(fault: JournalFault) -> CliFault {
        match fault {
            JournalFault::Memory => CliFault::Memory,
            fault => CliFault::Journal(fault),
        }
    }
}

impl From<StoreFault> for CliFault {
    ghost use Rattle.std.specs.Prelude.{◌≡◌};
    ghost use Rattle.cut_commands.specs.Faults.{fault_of_store};

    ghost from_gives = { λ fault e. e ≡ fault_of_store fault };

    fn from(fault: StoreFault) -> CliFault {
        match fault {
            StoreFault::Memory => CliFault::Memory,
            fault => CliFault::Store(fault),
        }
    }
}

impl From<RunFault> for CliFault {
    ghost use Rattle.std.specs.Prelude.{◌≡◌};
    ghost use Rattle.cut_commands.specs.Faults.{fault_of_study};

    ghost from_gives = { λ fault e. e ≡ fault_of_study fault };

    fn from(fault: RunFault) -> CliFault {
        match fault {
            RunFault::BadSlip(number) => CliFault::BadSlip(number),
            RunFault::Checkpoint => CliFault::Checkpoint,
            RunFault::Write(failed) => CliFault::Write(failed),
            RunFault::WorkMemory => CliFault::WorkMemory,
            RunFault::AuditMismatch => CliFault::AuditMismatch,
        }
    }
}

impl From<OpenFault> for CliFault {
    ghost use Rattle.std.specs.Prelude.{◌≡◌};
    ghost use Rattle.cut_commands.specs.Faults.{fault_of_files};

    ghost from_gives = { λ fault e. e ≡ fault_of_files fault };

    fn from(fault: OpenFault) -> CliFault {
        match fault {
            OpenFault::Memory => CliFault::Memory,
            OpenFault::Disk => CliFault::Journal(JournalFault::Disk),
        }
    }
}

impl From<StatusFault> for CliFault {
    ghost use Rattle.std.specs.Prelude.{◌≡◌};
    ghost use Rattle.cut_commands.specs.Faults.{fault_of_status};

    ghost from_gives = { λ fault e. e ≡ fault_of_status fault };

    fn from(fault: StatusFault) -> CliFault {
        match fault {
            StatusFault::Memory => CliFault::Memory,
            StatusFault::NoStudy => CliFault::Journal(JournalFault::NoStudy),
            StatusFault::Damaged(number) => CliFault::Journal(JournalFault::Damaged(number)),
            StatusFault::BadSlip(number) => CliFault::BadSlip(number),
        }
    }
}
