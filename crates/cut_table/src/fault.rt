ghost use Rattle.std.specs.Prelude.{◌≡◌};
ghost use Rattle.cut_table.specs.FaultCode.{code_of_row, code_of_table};

use cut_faults::FaultCode;
use cut_wires::Sent;
use std::alloc::AllocError;
use std::fmt;
use thiserror::Error;

/// Why the line of a cell was not given. It is printed as its number, its name and the cell.
#[derive(Debug, Drop, Error)]
pub enum RowFault {
    /// Memory ran out.
    Memory,
    /// Not every trial of this cell is held.
    NotDone(u32),
}

impl RowFault {
    /// The fault in the program's list of faults.
    pub fn code(&self) -> FaultCode
        ensures { result ≡ code_of_row self.now }
    {
        match self {
            RowFault::Memory => FaultCode::Memory,
            RowFault::NotDone(_) => FaultCode::NotDone,
        }
    }
}

impl fmt::Display for RowFault {
    ghost use Rattle.std.specs.Prelude.{Some};
    ghost use Rattle.cut_table.specs.FaultCode.{row_fault_text};

    ghost output = { λ fault. Some (row_fault_text fault) };

    fn fmt<W: fmt::Write>(&self, f: &mut fmt::Formatter<W>) -> fmt::Result {
        let code = self.code();
        match self {
            RowFault::NotDone(cell) => write!(f, "{code} {cell}"),
            RowFault::Memory => write!(f, "{code}"),
        }
    }
}

impl From<AllocError> for RowFault {
    ghost use Rattle.cut_table.specs.declared.fault.RowFault.TheVariants.{Memory};

    ghost from_gives = { λ _ e. e ≡ Memory };

    fn from(_refused: AllocError) -> RowFault {
        RowFault::Memory
    }
}

/// Why a table was not written to its end. It is printed as its number, its name and the cell or the count of bytes.
#[derive(Debug, Drop, Error)]
pub enum TableFault {
    /// A growth of memory was refused, after the wire had taken this many bytes.
    Memory(u64),
    /// Not every trial of this cell is held, and the lines before it are written.
    NotDone(u32),
    /// A write of the wire failed.
    Write(Sent),
}

impl TableFault {
    /// The fault in the program's list of faults.
    pub fn code(&self) -> FaultCode
        ensures { result ≡ code_of_table self.now }
    {
        match self {
            TableFault::Memory(_) => FaultCode::Memory,
            TableFault::NotDone(_) => FaultCode::NotDone,
            TableFault::Write(_) => FaultCode::Write,
        }
    }
}

impl fmt::Display for TableFault {
    ghost use Rattle.std.specs.Prelude.{Some};
    ghost use Rattle.cut_table.specs.FaultCode.{table_fault_text};

    ghost output = { λ fault. Some (table_fault_text fault) };

    fn fmt<W: fmt::Write>(&self, f: &mut fmt::Formatter<W>) -> fmt::Result {
        let code = self.code();
        match self {
            TableFault::NotDone(cell) => write!(f, "{code} {cell}"),
            TableFault::Memory(sent) | TableFault::Write(Sent { sent }) => {
                write!(f, "{code} {sent}")
            }
        }
    }
}
