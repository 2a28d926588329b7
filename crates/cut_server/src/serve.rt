//! A server of studies: workers and sessions in threads of one hall.
ghost use Rattle.std.specs.Prelude.{◌≡◌, ◌≤◌, ◌+◌, None, length, All, IfOk, IfErr};
ghost use Rattle.cut_server.specs.Serve.{Listens, WritesReport, accepted_in_all};
ghost use Rattle.cut_server.specs.Serve.{IsOfServing};
ghost use Rattle.cut_server.specs.inside.Serve.{IsOfClosing, IsOfWriting};
ghost use Rattle.cut_slots.specs.Report.{IsAcceptedCount, IsEndOf, accepted_recorded};

use crate::Capacity;
use crate::shelf::FolderShelf;
use crate::socket::Socket;
use crate::threads::{Listener, ServerEnv, run_threads};
use cut_book::Shelf;
use cut_commands::{CliFault, FaultText};
use cut_disks::{Disk, FileDisk};
use cut_hall::{Blanks, CallLedger, Hall, NotClosed, Pass, Report};
use cut_wires::{Wire, send_all};
use itoa::Buffer;
use std::alloc::Global;
use std::fs;
use std::marker::Brand;
use std::sync::Wait;
use std::sync::ledger::Blank;
use std::thread::Threads;

/// How many trials the pieces of a server's studies have.
const PIECE_SIZE: u32 = 16;

/// What a server works with: threads, memory, the shelf of its studies, and how many of each it has.
#[derive(Drop)]
pub struct Server<'a, S, R> {
    /// What makes its threads, and what they wait by.
    pub rt: &'a R,
    /// What gives it memory.
    pub alloc: Global,
    /// Where its studies are kept.
    pub shelf: &'a S,
    /// How many workers, sessions and studies it has.
    pub capacity: Capacity,
}

impl<S, R> Server<'_, S, R> {
    /// Serves as many connections as it has sessions, each in a thread of its own, and lets its workers work on the
    /// studies that come. Once every session has ended it closes the hall, and gives its report: of every study the
    /// trials that were counted are those that its history accepted.
    ///
    /// If a connection does not come, or a thread or memory is refused, no further one is taken, the work is ended, and
    /// the sessions that had begun go on until their clients leave. The listener comes back.
    pub fn serve_sessions<D, L>(&self, listener: L) -> (L, Result<Report, CliFault>)
    where
        D: Disk + Drop + Send,
        S: Shelf<D> + Sync,
        L: Listener + Drop,
        R: Threads + Wait + Sync,
        ensures slots { IfOk result.1 (λ report. length report ≡ self.now.capacity.studies) }
        ensures why { IfErr result.1 IsOfServing }
        ensures listens { Listens self.now.capacity.sessions result.1 (L.calls listener) (L.calls result.0) }
    {
        let Capacity {
            workers,
            sessions,
            studies,
        } = self.capacity;
        let made = Blank::new(u64::from(workers) + u64::from(sessions));
        let kept = Blank::new(u64::from(studies));
        self.serve_by::<D, Brand, Brand, L>(listener, Blanks { made, kept })
    }

    /// The same, with the blanks of the two ledgers of calls.
    fn serve_by<D, M, K, L>(&self, listener: L, blanks: Blanks) -> (L, Result<Report, CliFault>)
    where
        D: Disk + Drop + Send,
        M: CallLedger + Send + Sync,
        K: CallLedger + Send + Sync,
        S: Shelf<D> + Sync,
        L: Listener + Drop,
        R: Threads + Wait + Sync,
        requires made { (blanks.made.name ≡ M.name) × (blanks.made.parts ≡ M.parts)
            × (M.all ≡ M.parts) × (M.all ≡ self.now.capacity.workers + self.now.capacity.sessions) }
        requires kept { (blanks.kept.name ≡ K.name) × (blanks.kept.parts ≡ K.parts)
            × (K.all ≡ K.parts) × (K.all ≡ self.now.capacity.studies) × (K.opening ≡ None) }
        requires trusted { K.trusts ≡ S.is_true self.now.shelf.now }
        ensures slots { IfOk result.1 (λ report. length report ≡ self.now.capacity.studies) }
        ensures why { IfErr result.1 IsOfServing }
        ensures listens { Listens self.now.capacity.sessions result.1 (L.calls listener) (L.calls result.0) }
    {
        let Server {
            rt,
            alloc,
            shelf,
            capacity,
        } = *self;
        let seats = capacity.workers + capacity.sessions;
        let started = Hall::<D, M, K>::start(alloc, capacity.studies, seats, PIECE_SIZE, blanks);
        let Ok((hall, passes)) = started else {
            return (listener, Err(CliFault::WorkMemory));
        };
        let site = ServerEnv {
            rt,
            alloc,
            hall: &hall,
            shelf,
        };
        let (listener, finished) = run_threads(&site, listener, passes, capacity.workers);
        match finished {
            Ok(passes) => (listener, close_hall(alloc, hall, passes)),
            Err(fault) => (listener, Err(fault)),
        }
    }

    /// Serves sessions, and writes how many trials all studies accepted: `accepted`, a blank, the number in decimal
    /// and a line feed. At a fault of the serving nothing is written.
    pub fn serve_io<D, L, W>(&self, listener: L, wire: &mut W) -> (L, Result<Report, CliFault>)
    where
        D: Disk + Drop + Send,
        S: Shelf<D> + Sync,
        L: Listener + Drop,
        W: Wire,
        R: Threads + Wait + Sync,
        ensures writes { WritesReport self.now.capacity.studies result.1 (W.log wire.old) (W.log wire.new) }
        ensures listens { Listens self.now.capacity.sessions result.1 (L.calls listener) (L.calls result.0) }
    {
        let (listener, served) = self.serve_sessions(listener);
        match served {
            Ok(report) => (listener, write_accepted(report, wire)),
            Err(fault) => (listener, Err(fault)),
        }
    }
}

/// Closes a hall with all its passes.
fn close_hall<D, M, K>(
    alloc: Global,
    hall: Hall<D, M, K>,
    passes: Vec<Pass<M>>,
) -> Result<Report, CliFault>
where
    D: Disk + Drop,
    M: CallLedger,
    K: CallLedger,
    requires ledgers { (M.all ≡ M.parts) × (K.all ≡ K.parts) }
    requires own { All (λ p. p.hall ≡ hall.id) passes.items }
    requires whole { hall.passes ≤ length passes.items }
    ensures slots { IfOk result (λ report. length report ≡ hall.slots) }
    ensures why { IfErr result IsOfClosing }
{
    match hall.close(alloc, passes) {
        Ok(report) => Ok(report),
        Err(NotClosed::AuditMismatch(_mismatch)) => Err(CliFault::AuditMismatch),
        Err(NotClosed::Memory) => Err(CliFault::WorkMemory),
        Err(NotClosed::SeatMissing(_back)) => unreachable!(),
    }
}

/// Writes how many trials the studies of a report accepted, and gives the report back.
fn write_accepted<W: Wire>(report: Report, wire: &mut W) -> Result<Report, CliFault>
    requires { length report ≤ 64 }
    ensures same { IfOk result (λ back. back ≡ report) }
    ensures writes { WritesReport (length report) result (W.log wire.old) (W.log wire.new) }
    ensures why { IfErr result IsOfWriting }
{
    let mut digits = Buffer::new();
    let mut text = FaultText::new();
    text.push_str("accepted ");
    text.push_str(digits.format(accepted(&report)));
    text.push_str("\n");
    match send_all(wire, text.as_bytes()) {
        Ok(()) => Ok(report),
        Err(fault) => Err(CliFault::Write(fault)),
    }
}

/// How many trials the studies of a report accepted together.
fn accepted(report: &Report) -> u128
    requires { length report.now ≤ 64 }
    ensures value { result ≡ accepted_in_all report.now }
    ensures legal { All (λ s. IsEndOf s.history s.complete) report.now }
    ensures few { All (λ s. IsAcceptedCount (accepted_recorded s.history)) report.now }
{
    let slots = report.as_slice();
    let mut total = 0;
    for study in 0..slots.len() {
        total += u128::from(slots[study].accepted());
    }
    total
}

/// A server at a socket: where it listens, where it keeps its studies, and how many of each it has.
#[derive(Clone, Copy, Debug)]
pub struct SocketServer<'a> {
    /// The path of its socket.
    pub socket: &'a str,
    /// The folder of its studies, if they are kept.
    pub folder: Option<&'a str>,
    /// How many workers, sessions and studies it has.
    pub capacity: Capacity,
}

/// Serves, as [`Server::serve_io`] does, at the socket of a path, which is removed once the last connection is taken. If
/// the folder is not there or the socket is not made, nothing is served.
pub fn serve_at<W, R>(
    host: &HostRuntime,
    rt: &R,
    place: SocketServer<'_>,
    wire: &mut W,
) -> Result<Report, CliFault>
where
    W: Wire,
    R: Threads + Wait + Sync,
    ensures writes { WritesReport place.entry.capacity.studies result (W.log wire.old) (W.log wire.new) }
{
    let SocketServer {
        socket,
        folder,
        capacity,
    } = place;
    if !is_folder(host, folder) {
        return Err(CliFault::Folder);
    }
    let Ok(socket) = Socket::open(host, socket) else {
        return Err(CliFault::Socket);
    };
    let server = Server {
        rt,
        alloc: host.alloc(),
        shelf: &FolderShelf { host, folder },
        capacity,
    };
    let (mut socket, served) = server.serve_io::<FileDisk, Socket, W>(socket, wire);
    socket.close();
    served
}

/// Whether there is a folder at the path, if one is given.
fn is_folder(host: &HostRuntime, folder: Option<&str>) -> bool {
    match folder {
        Some(path) => fs::metadata(host, path).is_ok_and(|found| found.is_dir()),
        None => true,
    }
}
