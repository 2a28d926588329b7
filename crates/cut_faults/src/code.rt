ghost use Rattle.std.specs.Prelude.{◌≡◌, ◌≤◌, length};
ghost use Rattle.cut_faults.specs.Codes.{all_codes, number_of, name_of, status_of, code_numbered, name_numbered};
ghost use Rattle.cut_faults.specs.Codes.{status_numbered};

use std::fmt;

/// The faults of the program, in one list. Each has a number, a name and the exit status of a command that ends with
/// it. The numbers are defined by this project; a server's replies carry them, too.
#[derive(Clone, Copy, Debug, PartialEq, Eq)]
pub enum FaultCode {
    /// Memory ran out.
    Memory,
    /// The text is not JSON.
    NotJson,
    /// The JSON value is not an object.
    NotObject,
    /// The object has an unknown field.
    UnknownField,
    /// The object lacks a field.
    MissingField,
    /// A field's value has the wrong kind.
    WrongKind,
    /// A field's value is out of its range, or an empty list.
    OutOfRange,
    /// A field's list is not strictly ascending.
    NotRising,
    /// No combination of the plan's lists has l <= h <= k.
    NoCell,
    /// The largest f, the liars and the links are together more than the processes.
    TooManyFaults,
    /// There are more than 4096 cells.
    TooManyTrials,
    /// A list does not hold each process once.
    NotPermutation,
    /// There are fewer than 2 processes, or there is no list.
    TooFew,
    /// Lists do not give each process one role.
    BadRole,
    /// A piece is empty, goes past the last trial, or lies in two cells.
    BadPiece,
    /// A result is of another plan.
    Stranger,
    /// A trial of the result is held already.
    Overlap,
    /// A slip is not of a piece of the plan, overlaps an earlier slip, or has impossible totals.
    BadSlip,
    /// A trial of the cell is not held yet.
    NotDone,
    /// The plan's text has more than 65,536 bytes.
    PlanTooLong,
    /// A call of the checkpoint's disk failed.
    Disk,
    /// The checkpoint failed before, and takes nothing until it is reopened.
    Broken,
    /// The checkpoint holds no study.
    NoStudy,
    /// The checkpoint is of another plan.
    OtherPlan,
    /// The checkpoint's header or a slip is damaged.
    Damaged,
    /// The checkpoint holds a study already.
    Held,
    /// There is no study of this number.
    NoSlot,
    /// A seat has counted as much as it may.
    SeatFull,
    /// Not all seats were brought back.
    SeatMissing,
    /// Every slot has a study.
    SlotsFull,
    /// A study's checkpoint failed.
    Checkpoint,
    /// A write failed.
    Write,
    /// A running study got no more memory, or no thread.
    WorkMemory,
    /// Two counts of the same work differ.
    AuditMismatch,
    /// The study was stopped.
    Stopped,
    /// A message has an unknown kind.
    BadKind,
    /// A message has more than 65,536 bytes.
    TooLong,
    /// A stream ended inside a message.
    Truncated,
    /// A read failed.
    Read,
    /// A session has used up its requests.
    TooManyRequests,
    /// A message's length is wrong for its kind.
    BadLength,
    /// A slip's numbers are not those that its trials give.
    Disagrees,
    /// The plan to be upgraded is not of version 1.
    NotVersion1,
}

/// A row of the list of faults: the number, the name, and the exit status of a command that ended with the fault.
#[derive(Clone, Copy)]
struct FaultRow {
    number: u16,
    name: &'static str,
    status: u8,
}

impl FaultRow {
    fn new(number: u16, name: &'static str, status: u8) -> FaultRow
        ensures number { result.number ≡ number }
        ensures name { result.name.now ≡ name.now }
        ensures status { result.status ≡ status }
    {
        FaultRow {
            number,
            name,
            status,
        }
    }
}

impl FaultCode {
    /// The fault's row of the list. A command ends with 3 if a plan was refused, with 5 if memory ran out, and with 4
    /// at any other fault.
    fn row(self) -> FaultRow
        ensures number { result.number ≡ number_of self }
        ensures name { result.name.now ≡ name_of self }
        ensures short { length result.name.now ≤ 16 }
        ensures status { result.status ≡ status_of self }
    {
        match self {
            FaultCode::Memory => FaultRow::new(0, "Memory", 5),
            FaultCode::NotJson => FaultRow::new(1, "NotJson", 3),
            FaultCode::NotObject => FaultRow::new(2, "NotObject", 3),
            FaultCode::UnknownField => FaultRow::new(3, "UnknownField", 3),
            FaultCode::MissingField => FaultRow::new(4, "MissingField", 3),
            FaultCode::WrongKind => FaultRow::new(5, "WrongKind", 3),
            FaultCode::OutOfRange => FaultRow::new(6, "OutOfRange", 3),
            FaultCode::NotRising => FaultRow::new(7, "NotRising", 3),
            FaultCode::NoCell => FaultRow::new(8, "NoCell", 3),
            FaultCode::TooManyFaults => FaultRow::new(9, "TooManyFaults", 3),
            FaultCode::TooManyTrials => FaultRow::new(10, "TooManyTrials", 3),
            FaultCode::NotPermutation => FaultRow::new(11, "NotPermutation", 4),
            FaultCode::TooFew => FaultRow::new(12, "TooFew", 4),
            FaultCode::BadRole => FaultRow::new(13, "BadRole", 4),
            FaultCode::BadPiece => FaultRow::new(14, "BadPiece", 4),
            FaultCode::Stranger => FaultRow::new(15, "Stranger", 4),
            FaultCode::Overlap => FaultRow::new(16, "Overlap", 4),
            FaultCode::BadSlip => FaultRow::new(17, "BadSlip", 4),
            FaultCode::NotDone => FaultRow::new(18, "NotDone", 4),
            FaultCode::PlanTooLong => FaultRow::new(19, "PlanTooLong", 3),
            FaultCode::Disk => FaultRow::new(20, "Disk", 4),
            FaultCode::Broken => FaultRow::new(21, "Broken", 4),
            FaultCode::NoStudy => FaultRow::new(22, "NoStudy", 4),
            FaultCode::OtherPlan => FaultRow::new(23, "OtherPlan", 4),
            FaultCode::Damaged => FaultRow::new(24, "Damaged", 4),
            FaultCode::Held => FaultRow::new(25, "Held", 4),
            FaultCode::NoSlot => FaultRow::new(26, "NoSlot", 4),
            FaultCode::SeatFull => FaultRow::new(27, "SeatFull", 4),
            FaultCode::SeatMissing => FaultRow::new(28, "SeatMissing", 4),
            FaultCode::SlotsFull => FaultRow::new(29, "SlotsFull", 4),
            FaultCode::Checkpoint => FaultRow::new(30, "Checkpoint", 4),
            FaultCode::Write => FaultRow::new(31, "Write", 4),
            FaultCode::WorkMemory => FaultRow::new(32, "Memory", 5),
            FaultCode::AuditMismatch => FaultRow::new(33, "AuditMismatch", 4),
            FaultCode::Stopped => FaultRow::new(34, "Stopped", 4),
            FaultCode::BadKind => FaultRow::new(40, "BadKind", 4),
            FaultCode::TooLong => FaultRow::new(41, "TooLong", 4),
            FaultCode::Truncated => FaultRow::new(42, "Truncated", 4),
            FaultCode::Read => FaultRow::new(43, "Read", 4),
            FaultCode::TooManyRequests => FaultRow::new(44, "TooManyRequests", 4),
            FaultCode::BadLength => FaultRow::new(45, "BadLength", 4),
            FaultCode::Disagrees => FaultRow::new(46, "Disagrees", 4),
            FaultCode::NotVersion1 => FaultRow::new(47, "NotVersion1", 3),
        }
    }

    /// The fault's number.
    pub fn number(self) -> u16
        ensures { result ≡ number_of self }
    {
        self.row().number
    }

    /// The fault's name as it is printed, at most 16 bytes.
    pub fn name(self) -> &'static str
        ensures name { result.now ≡ name_of self }
        ensures short { length result.now ≤ 16 }
    {
        self.row().name
    }

    /// The exit status of a command that ended with this fault.
    pub fn status(self) -> u8
        ensures { result ≡ status_of self }
    {
        self.row().status
    }

    /// The fault of this number, if there is one.
    pub fn of_number(number: u16) -> Option<FaultCode>
        ensures { result ≡ code_numbered number }
    {
        let codes = all_codes();
        codes.iter().copied().find(|code| code.number() == number)
    }
}

/// The name of the fault of this number, `Unknown` if there is none.
pub fn name_of_number(number: u16) -> &'static str
    ensures { result.now ≡ name_numbered number }
{
    match FaultCode::of_number(number) {
        Some(code) => code.name(),
        None => "Unknown",
    }
}

/// The exit status of a command that ended with the fault of this number, 4 if there is none.
pub fn status_of_number(number: u16) -> u8
    ensures { result ≡ status_numbered number }
{
    match FaultCode::of_number(number) {
        Some(code) => code.status(),
        None => 4,
    }
}

impl fmt::Display for FaultCode {
    ghost use Rattle.std.specs.Prelude.{Some};
    ghost use Rattle.cut_faults.specs.Codes.{code_text};

    ghost output = { λ code. Some (code_text code) };

    fn fmt<W: fmt::Write>(&self, f: &mut fmt::Formatter<W>) -> fmt::Result {
        write!(f, "{} {}", self.number(), self.name())
    }
}

/// Every fault, by number.
#[tactic(auto, unfolding(crate::specs::Codes::all_codes))]
fn all_codes() -> [FaultCode; 43]
    ensures { result ≡ all_codes }
{
    [
        FaultCode::Memory,
        FaultCode::NotJson,
        FaultCode::NotObject,
        FaultCode::UnknownField,
        FaultCode::MissingField,
        FaultCode::WrongKind,
        FaultCode::OutOfRange,
        FaultCode::NotRising,
        FaultCode::NoCell,
        FaultCode::TooManyFaults,
        FaultCode::TooManyTrials,
        FaultCode::NotPermutation,
        FaultCode::TooFew,
        FaultCode::BadRole,
        FaultCode::BadPiece,
        FaultCode::Stranger,
        FaultCode::Overlap,
        FaultCode::BadSlip,
        FaultCode::NotDone,
        FaultCode::PlanTooLong,
        FaultCode::Disk,
        FaultCode::Broken,
        FaultCode::NoStudy,
        FaultCode::OtherPlan,
        FaultCode::Damaged,
        FaultCode::Held,
        FaultCode::NoSlot,
        FaultCode::SeatFull,
        FaultCode::SeatMissing,
        FaultCode::SlotsFull,
        FaultCode::Checkpoint,
        FaultCode::Write,
        FaultCode::WorkMemory,
        FaultCode::AuditMismatch,
        FaultCode::Stopped,
        FaultCode::BadKind,
        FaultCode::TooLong,
        FaultCode::Truncated,
        FaultCode::Read,
        FaultCode::TooManyRequests,
        FaultCode::BadLength,
        FaultCode::Disagrees,
        FaultCode::NotVersion1,
    ]
}
