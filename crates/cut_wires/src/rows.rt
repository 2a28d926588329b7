ghost use Rattle.std.specs.Prelude.{◌≡◌, ◌+◌, ◌<◌, ◌≤◌, ℕ, List, length};
ghost use Rattle.cut_wires.specs.declared.rows.TheConstants.{LONGEST_ROW};
ghost use Rattle.cut_wires.specs.Rows.{Table, Gives, SendsRows};
ghost use Rattle.cut_wires.specs.Sending.{Sends, sending};

use crate::{CountingWriter, Sent, Wire};

/// The most bytes of a header or a row of a table, which fit into one message.
pub const LONGEST_ROW: usize = 65_536;

/// How a text is put on a wire: as it is, or as the payload of a message.
pub trait Encoding {
    /// The bytes that are sent for a text.
    ghost framed: { List ℕ → List ℕ };

    /// Sends a text, which is at most as long as a row.
    fn send<W: Wire>(writer: &mut CountingWriter<'_, W>, text: &[u8]) -> Result<(), Sent>
        requires { length text.now ≤ LONGEST_ROW }
        ensures { Sends result (framed text.now) (sending W.log writer.old) (sending W.log writer.new) };

    /// Encoding adds at most 5 bytes.
    ghost short: { (text : List ℕ) → length (framed text) ≤ length text + 5 };
}

/// A text is sent as it is.
pub struct PlainRows;

impl Encoding for PlainRows {
    ghost use Rattle.std.proofs.Common.{arith};

    ghost framed = { λ text. text };

    fn send<W: Wire>(writer: &mut CountingWriter<'_, W>, text: &[u8]) -> Result<(), Sent> {
        writer.send(text)
    }

    ghost short = { λ text. Prim.omega arith };
}

/// A table whose rows are given one by one, in order.
pub trait RowSource {
    /// Why a row is not given.
    type Fault: Drop;

    /// The table.
    ghost table: { Self → Table };

    /// The first rows were given, by what gave them as it was at first and as it is.
    ghost HasGiven: { Self → ℕ → Self → Type 0 };

    /// The row at a place was not given, and why, by what gave those before it as it was at first and as it is.
    ghost HasFailed: { Self → ℕ → Self.Fault → Self → Type 0 };

    /// The header.
    fn header(&self) -> &[u8]
        ensures text { result.now ≡ (table self.now).header }
        ensures short { length result.now ≤ (table self.now).longest };

    /// How many rows there are.
    fn count(&self) -> u32
        ensures { result ≡ (table self.now).rows };

    /// The row at a place.
    fn row(&mut self, place: u32) -> Result<Vec<u8>, Self::Fault>
        requires { place < (table self.old).rows }
        ensures same { table self.new ≡ table self.old }
        ensures row { (first : Self) → HasGiven first place self.old → Gives (table self.old) place result
            (HasGiven first (place + 1) self.new) (λ e. HasFailed first place e self.new) };

    /// At first none was given.
    ghost begins: { (rows : Self) → HasGiven rows 0 rows };

    /// The header and the rows are not too long for an encoding.
    ghost fits: { (rows : Self) → (table rows).longest ≤ LONGEST_ROW };
}

/// Why the rows of a table were not all sent.
#[derive(Clone, Copy, Debug, PartialEq, Eq)]
pub enum RowsFault<E> {
    /// A write failed, and the fault has how many bytes the writer had sent.
    Write(Sent),
    /// A row was not given.
    Row(E),
}

/// Sends the header and the rows of a table by a counting writer, up to the first row that is not given.
pub fn send_rows<F: Encoding, R: RowSource, W: Wire>(
    rows: &mut R,
    writer: &mut CountingWriter<'_, W>,
) -> Result<(), RowsFault<R::Fault>>
    ensures { SendsRows F.framed (R.table rows.old) (λ n. R.HasGiven rows.old n rows.new)
        (λ n e. R.HasFailed rows.old n e rows.new) result (sending W.log writer.old) (sending W.log writer.new) }
{
    let count = rows.count();
    match F::send(writer, rows.header()) {
        Ok(()) => {}
        Err(fault) => return Err(RowsFault::Write(fault)),
    }
    for place in 0..count {
        let text = match rows.row(place) {
            Ok(text) => text,
            Err(fault) => return Err(RowsFault::Row(fault)),
        };
        match F::send(writer, text.as_slice()) {
            Ok(()) => {}
            Err(fault) => return Err(RowsFault::Write(fault)),
        }
    }
    Ok(())
}
