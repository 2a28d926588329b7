ghost use Rattle.std.specs.Prelude.{◌≡◌};
ghost use Rattle.cut_session.specs.FaultCode.{code_of_session};

use cut_faults::FaultCode;
use cut_messages::StreamFault;
use cut_wires::Sent;
use std::fmt;
use thiserror::Error;

/// How a session ended.
#[derive(Clone, Copy, Debug, PartialEq, Eq)]
pub enum SessionEnd {
    /// The client said that no further request comes.
    Quit,
    /// The input ended between two messages.
    EndOfInput,
    /// This fault ended it, and its number was sent to the client.
    Fault(SessionFault),
    /// A write of the replies failed.
    Write(Sent),
}

/// A fault that ends a session. It is printed as its number and its name.
#[derive(Clone, Copy, Debug, PartialEq, Eq, Error)]
pub enum SessionFault {
    /// Memory ran out for reading requests.
    Memory,
    /// A read of the wire failed.
    Read,
    /// The input ended inside a message.
    Truncated,
    /// There are more than 1,000,000 requests.
    TooManyRequests,
    /// The input has something that is not a request.
    Stream(StreamFault),
}

impl SessionFault {
    /// The fault in the program's list of faults.
    pub fn code(self) -> FaultCode
        ensures { result ≡ code_of_session self }
    {
        match self {
            SessionFault::Memory => FaultCode::WorkMemory,
            SessionFault::Read => FaultCode::Read,
            SessionFault::Truncated => FaultCode::Truncated,
            SessionFault::TooManyRequests => FaultCode::TooManyRequests,
            SessionFault::Stream(fault) => fault.code(),
        }
    }
}

impl fmt::Display for SessionFault {
    ghost use Rattle.std.specs.Prelude.{Some};
    ghost use Rattle.cut_faults.specs.Codes.{code_text};
    ghost use Rattle.cut_session.specs.FaultCode.{code_of_session};

    ghost output = { λ fault. Some (code_text (code_of_session fault)) };

    fn fmt<W: fmt::Write>(&self, f: &mut fmt::Formatter<W>) -> fmt::Result {
        let code = self.code();
        write!(f, "{code}")
    }
}
