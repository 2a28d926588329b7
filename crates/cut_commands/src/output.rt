ghost use Rattle.std.specs.Prelude.{◌≡◌, ◌++◌, string_bytes, OnOk};
ghost use Rattle.cut_commands.specs.Check.{number_line};
ghost use Rattle.cut_commands.specs.Run.{IsWritten};

use crate::CliFault;
use cut_wires::{Wire, send_all};
use std::alloc::{AllocError, Global};

/// Writes the answer of a command to its wire. If a write fails, the fault says how many of its bytes were taken.
pub fn write_answer<W: Wire>(wire: &mut W, answer: &[u8]) -> Result<(), CliFault>
    ensures { IsWritten answer.now result (W.log wire.old) (W.log wire.new) }
{
    match send_all(wire, answer) {
        Ok(()) => Ok(()),
        Err(fault) => Err(CliFault::Write(fault)),
    }
}

/// Appends a word, a blank, a number in decimal and a line feed.
pub(crate) fn push_line(
    alloc: Global,
    text: &mut String,
    word: &str,
    number: u64,
) -> Result<(), AllocError>
    ensures { OnOk result (string_bytes text.new ≡ string_bytes text.old ++ number_line word.now number) }
{
    let digits = number.to_string(alloc)?;
    text.push_str(word)?;
    text.push_str(" ")?;
    text.push_str(digits.as_str())?;
    text.push_str("\n")?;
    Ok(())
}
