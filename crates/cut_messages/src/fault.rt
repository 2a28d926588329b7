ghost use Rattle.std.specs.Prelude.{◌≡◌};
ghost use Rattle.cut_messages.specs.FaultCode.{code_of_stream, code_of_end, number_of_ask};

use cut_faults::{FaultCode, name_of_number};
use std::fmt;
use thiserror::Error;

/// What is wrong with the bytes of a stream where a message should begin. It is printed as its number and its name.
#[derive(Clone, Copy, Debug, PartialEq, Eq, Error)]
pub enum StreamFault {
    /// A message begins with a byte that is not a kind of this side.
    BadKind,
    /// A payload would have more than 65,536 bytes.
    TooLong,
    /// The payload's length is wrong for the message's kind.
    BadLength,
}

impl StreamFault {
    /// The fault in the program's list of faults.
    pub fn code(self) -> FaultCode
        ensures { result ≡ code_of_stream self }
    {
        match self {
            StreamFault::BadKind => FaultCode::BadKind,
            StreamFault::TooLong => FaultCode::TooLong,
            StreamFault::BadLength => FaultCode::BadLength,
        }
    }
}

impl fmt::Display for StreamFault {
    ghost use Rattle.std.specs.Prelude.{Some};
    ghost use Rattle.cut_faults.specs.Codes.{code_text};
    ghost use Rattle.cut_messages.specs.FaultCode.{code_of_stream};

    ghost output = { λ fault. Some (code_text (code_of_stream fault)) };

    fn fmt<W: fmt::Write>(&self, f: &mut fmt::Formatter<W>) -> fmt::Result {
        let code = self.code();
        write!(f, "{code}")
    }
}

/// Why a stream may not end if it does. It is printed as its number and its name.
#[derive(Clone, Copy, Debug, PartialEq, Eq, Error)]
pub enum EndFault {
    /// The stream has a fault.
    Stream(StreamFault),
    /// A message has begun and is not complete.
    Truncated,
}

impl EndFault {
    /// The fault in the program's list of faults.
    pub fn code(self) -> FaultCode
        ensures { result ≡ code_of_end self }
    {
        match self {
            EndFault::Stream(fault) => fault.code(),
            EndFault::Truncated => FaultCode::Truncated,
        }
    }
}

impl fmt::Display for EndFault {
    ghost use Rattle.std.specs.Prelude.{Some};
    ghost use Rattle.cut_faults.specs.Codes.{code_text};
    ghost use Rattle.cut_messages.specs.FaultCode.{code_of_end};

    ghost output = { λ fault. Some (code_text (code_of_end fault)) };

    fn fmt<W: fmt::Write>(&self, f: &mut fmt::Formatter<W>) -> fmt::Result {
        let code = self.code();
        write!(f, "{code}")
    }
}

/// Why a client got no complete table. It is printed as its number and the name of the fault of that number.
#[derive(Clone, Copy, Debug, PartialEq, Eq, Error)]
pub enum AskFault {
    /// Memory ran out.
    Memory,
    /// The plan's text has more than 65,536 bytes.
    PlanTooLong,
    /// A write of the request failed.
    Request,
    /// A write of the table failed.
    Output,
    /// A read of the answer failed.
    Read,
    /// The answer had no end after 2^32 reads.
    Endless,
    /// The answer ended before the table did.
    Truncated,
    /// The answer has something that is not a reply.
    Stream(StreamFault),
    /// The server reported the fault with this number.
    Reported(u16),
}

impl AskFault {
    /// The fault's number: one of the program's list of faults, or what the server reported.
    pub fn number(self) -> u16
        ensures { result ≡ number_of_ask self }
    {
        let code = match self {
            AskFault::Reported(number) => return number,
            AskFault::Memory => FaultCode::WorkMemory,
            AskFault::PlanTooLong => FaultCode::PlanTooLong,
            AskFault::Request | AskFault::Output => FaultCode::Write,
            AskFault::Read | AskFault::Endless => FaultCode::Read,
            AskFault::Truncated => FaultCode::Truncated,
            AskFault::Stream(fault) => fault.code(),
        };
        code.number()
    }
}

impl fmt::Display for AskFault {
    ghost use Rattle.std.specs.Prelude.{Some};
    ghost use Rattle.cut_messages.specs.FaultCode.{ask_fault_text};

    ghost output = { λ fault. Some (ask_fault_text fault) };

    fn fmt<W: fmt::Write>(&self, f: &mut fmt::Formatter<W>) -> fmt::Result {
        let number = self.number();
        let name = name_of_number(number);
        write!(f, "{number} {name}")
    }
}
