ghost use Rattle.cut_wires.specs.Sending.{Sends, sending};
ghost use Rattle.cut_session.specs.Answering.{error_frame};

use cut_faults::FaultCode;
use cut_messages::{Kind, send_message};
use cut_wires::{CountingWriter, Sent, Wire};

/// Sends the number of a fault.
pub(crate) fn send_fault<W: Wire>(
    writer: &mut CountingWriter<'_, W>,
    fault: FaultCode,
) -> Result<(), Sent>
    ensures { Sends result (error_frame fault) (sending W.log writer.old) (sending W.log writer.new) }
{
    send_message(writer, Kind::Fault, &fault.number().to_be_bytes())
}
