ghost use Rattle.std.specs.Prelude.{◌≡◌, ◌*◌, ◌<◌, ◌≤◌, length, map, IfOk};
ghost use Rattle.std.specs.Fmt.{decimal};
ghost use Rattle.csv.specs.Records.{fields_of};
ghost use Rattle.cut_ledger.specs.lines.Lines.{comma_line};

use csv::{ByteRecord, WriterBuilder};
use std::alloc::{AllocError, Global};

/// A line of a table: numbers in decimal with commas between them, and a line feed.
pub(crate) fn write_row(alloc: Global, numbers: &[u64]) -> Result<Vec<u8>, AllocError>
    requires { 0 < length numbers.now }
    ensures text { IfOk result (λ text. text.items ≡ comma_line numbers.now) }
    ensures short { IfOk result (λ text. length text.items ≤ 21 * length numbers.now) }
{
    let record = record_of(alloc, numbers)?;
    let mut writer = WriterBuilder::new().from_writer(Vec::new(alloc));
    writer.write_byte_record(&record).map_err(|_| AllocError)?;
    writer.into_inner().map_err(|_| AllocError)
}

/// The numbers in decimal, as the fields of a record.
fn record_of(alloc: Global, numbers: &[u64]) -> Result<ByteRecord, AllocError>
    ensures { IfOk result (λ r. fields_of r ≡ map decimal numbers.now) }
{
    let mut record = ByteRecord::new(alloc);
    for number in numbers {
        let text = number.to_string(alloc)?;
        record.push_field(text.as_bytes())?;
    }
    Ok(record)
}
