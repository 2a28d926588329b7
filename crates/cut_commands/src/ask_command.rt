ghost use Rattle.cut_sockets.specs.Peer.{KeepsOtherPeers};
ghost use Rattle.cut_commands.specs.Ask.{AsksFrom, EndsAsk};
ghost use Rattle.cut_commands.specs.Run.{source_place};

use crate::CliFault;
use crate::input::PlanSource;
use cut_files::Files;
use cut_sockets::Sockets;
use cut_wires::Wire;
use std::alloc::Global;

/// Asks the server whose socket is at a path for the table of a plan, which is read from a wire or a file, and writes
/// the table's lines to the wire as they come.
///
/// The server is connected to before anything is read. If it isn't, nothing is read or written, and the fault is Socket.
/// At most 65,537 bytes are read. Of a text with more than 65,536 bytes nothing is sent. At a fault the wire has the
/// lines that came before it. Where it is known what the server replies, the contract says which lines these are.
pub fn ask<F: Files, S: Sockets, W: Wire>(
    sockets: &mut S,
    alloc: Global,
    source: PlanSource<'_, F>,
    wire: &mut W,
    path: &str,
) -> Result<(), CliFault>
    ensures ends { EndsAsk (source_place F.log source.entry) (S.log sockets.old path.now) (S.log sockets.new path.now)
        (W.log wire.old) (W.log wire.new) result }
    ensures elsewhere { KeepsOtherPeers path.now (S.log sockets.old) (S.log sockets.new) }
{
    let mut server = match sockets.connect(path) {
        Ok(server) => server,
        Err(_) => return Err(CliFault::Socket),
    };
    let ended = ask_over(alloc, source, wire, &mut server);
    sockets.hang_up(path, server);
    ended
}

/// Asks over the wire of a server, as `ask` does.
fn ask_over<F: Files, W: Wire, C: Wire>(
    alloc: Global,
    source: PlanSource<'_, F>,
    wire: &mut W,
    server: &mut C,
) -> Result<(), CliFault>
    ensures { AsksFrom (source_place F.log source.entry) result (W.log wire.old) (W.log wire.new)
        (C.log server.old) (C.log server.new) }
{
    let text = source.read_text(alloc, wire)?;
    match cut_messages::ask(alloc, text.as_slice(), server, wire) {
        Ok(()) => Ok(()),
        Err(fault) => Err(CliFault::Asked(fault)),
    }
}
