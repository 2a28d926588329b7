ghost use Rattle.std.specs.Prelude.{◌≡◌};
ghost use Rattle.cut_plan.specs.Refusals.{code_of_refusal, code_of, field_of_refusal};

use crate::Field;
use cut_faults::FaultCode;
use std::alloc::{AllocError, AllocFailed};
use std::fmt;
use thiserror::Error;

/// What is wrong with a text that is not an accepted plan. A refusal of a field names the first such field in byte
/// order. It is printed as its number, its name and the field.
#[derive(Clone, Copy, Debug, PartialEq, Eq)]
pub enum Refusal {
    /// The text is not JSON.
    NotJson,
    /// The JSON value is not an object.
    NotObject,
    /// The object has an unknown field.
    UnknownField,
    /// The object lacks this field.
    MissingField(Field),
    /// This field's value has the wrong kind.
    WrongKind(Field),
    /// This field's value is out of its range, or an empty list.
    OutOfRange(Field),
    /// This field's list is not strictly ascending.
    NotRising(Field),
    /// No combination of the lists has `l <= h <= k`.
    NoCell,
    /// The largest f, the liars and the links are together more than the processes.
    TooManyFaults,
    /// There are more than 4096 cells.
    TooManyTrials,
    /// The text has more than 65,536 bytes.
    PlanTooLong,
}

impl Refusal {
    /// The refusal in the program's list of faults.
    pub fn code(self) -> FaultCode
        ensures { result ≡ code_of_refusal self }
    {
        match self {
            Refusal::NotJson => FaultCode::NotJson,
            Refusal::NotObject => FaultCode::NotObject,
            Refusal::UnknownField => FaultCode::UnknownField,
            Refusal::MissingField(_) => FaultCode::MissingField,
            Refusal::WrongKind(_) => FaultCode::WrongKind,
            Refusal::OutOfRange(_) => FaultCode::OutOfRange,
            Refusal::NotRising(_) => FaultCode::NotRising,
            Refusal::NoCell => FaultCode::NoCell,
            Refusal::TooManyFaults => FaultCode::TooManyFaults,
            Refusal::TooManyTrials => FaultCode::TooManyTrials,
            Refusal::PlanTooLong => FaultCode::PlanTooLong,
        }
    }

    /// The field that the refusal carries, if it carries one.
    pub fn field(self) -> Option<Field>
        ensures { result ≡ field_of_refusal self }
    {
        match self {
            Refusal::MissingField(field)
            | Refusal::WrongKind(field)
            | Refusal::OutOfRange(field)
            | Refusal::NotRising(field) => Some(field),
            _ => None,
        }
    }
}

impl fmt::Display for Refusal {
    ghost use Rattle.std.specs.Prelude.{Some};
    ghost use Rattle.cut_plan.specs.Refusals.{refusal_text};

    ghost output = { λ refusal. Some (refusal_text refusal) };

    fn fmt<W: fmt::Write>(&self, f: &mut fmt::Formatter<W>) -> fmt::Result {
        let code = self.code();
        match self.field() {
            Some(field) => write!(f, "{code} {field}"),
            None => write!(f, "{code}"),
        }
    }
}

/// Why no plan was made. It is printed as its number, its name and the field, if it names one.
#[derive(Debug, Drop, Error)]
pub enum PlanFault {
    /// Memory ran out.
    Memory,
    /// The text is not an accepted plan.
    Refused(Refusal),
}

impl PlanFault {
    /// The fault in the program's list of faults.
    pub fn code(&self) -> FaultCode
        ensures { result ≡ code_of self.now }
    {
        match self {
            PlanFault::Memory => FaultCode::Memory,
            PlanFault::Refused(refusal) => refusal.code(),
        }
    }
}

impl fmt::Display for PlanFault {
    ghost use Rattle.std.specs.Prelude.{Some};
    ghost use Rattle.cut_plan.specs.Refusals.{fault_text};

    ghost output = { λ fault. Some (fault_text fault) };

    fn fmt<W: fmt::Write>(&self, f: &mut fmt::Formatter<W>) -> fmt::Result {
        match self {
            PlanFault::Memory => write!(f, "{}", FaultCode::Memory),
            PlanFault::Refused(refusal) => write!(f, "{refusal}"),
        }
    }
}

impl From<Refusal> for PlanFault {
    ghost use Rattle.cut_plan.specs.declared.refusal.PlanFault.TheVariants.{Refused};

    ghost from_gives = { λ refusal e. e ≡ Refused refusal };

    fn from(refusal: Refusal) -> PlanFault {
        PlanFault::Refused(refusal)
    }
}

impl From<AllocError> for PlanFault {
    ghost use Rattle.cut_plan.specs.declared.refusal.PlanFault.TheVariants.{Memory};

    ghost from_gives = { λ _ e. e ≡ Memory };

    fn from(_refused: AllocError) -> PlanFault {
        PlanFault::Memory
    }
}

impl<T: Drop> From<AllocFailed<T>> for PlanFault {
    ghost use Rattle.cut_plan.specs.declared.refusal.PlanFault.TheVariants.{Memory};

    ghost from_gives = { λ _ e. e ≡ Memory };

    fn from(_refused: AllocFailed<T>) -> PlanFault {
        PlanFault::Memory
    }
}
