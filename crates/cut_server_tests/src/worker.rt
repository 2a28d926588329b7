//! Sessions beside a worker: each is served in a thread of its own, and the worker works in another on what they
//! submit.
ghost use Rattle.std.specs.Prelude.{◌≡◌, All};
ghost use Rattle.atomic_table.specs.Seated.{TableId};

use crate::asking::PLAN;
use crate::serving::SUBMIT;
use cut_book::NoShelf;
use cut_disks::MemoryDisk;
use cut_hall::{Blanks, CallLedger, Hall, OpenGate, Pass, Report};
use cut_session::{SessionEnd, session};
use cut_wires::FaultyWire;
use std::alloc::Global;
use std::marker::Brand;
use std::sync::atomic::{AtomicU64, Ordering};
use std::sync::ledger::Blank;
use std::sync::{Mutex, Wait};
use std::test::Fail;
use std::thread::Threads;
use std::{mem, thread};

/// A client: its number, its wire, and how its session ended, once it has.
#[derive(Drop)]
pub(crate) struct Client {
    number: u64,
    wire: FaultyWire,
    end: Option<SessionEnd>,
}

impl Client {
    /// One that was not served yet.
    fn new(number: u64, wire: FaultyWire) -> Client {
        Client {
            number,
            wire,
            end: None,
        }
    }
}

/// What the threads share beside their hall: how many have begun, and the clients that wait, and that were served.
#[derive(Drop)]
struct Shared {
    begun: AtomicU64,
    waiting: Mutex<Vec<Client>>,
    served: Mutex<Vec<Client>>,
}

/// A hall in which no study is kept.
type OpenHall<M, K> = Hall<MemoryDisk, M, K>;

/// A hall as the threads of a worker and of two clients share it.
trait SessionHall<M: CallLedger> {
    /// Which hall it is.
    ghost id_of: { Self → TableId };

    /// Works on all studies until the work is ended if this thread is the first one, else serves a client. Once two
    /// were served so, the work is ended.
    fn take_part<R: Wait>(&self, rt: &R, alloc: Global, shared: &Shared, pass: &mut Pass<M>)
        requires { pass.old.hall ≡ id_of self.now }
        ensures { pass.new.hall ≡ id_of self.now };
}

impl<M: CallLedger, K: CallLedger> SessionHall<M> for OpenHall<M, K> {
    ghost id_of = { λ h. h.id };

    fn take_part<R: Wait>(&self, rt: &R, alloc: Global, shared: &Shared, pass: &mut Pass<M>) {
        if shared.begun.fetch_add(1, Ordering::SeqCst) == 0 {
            return self.work(rt, alloc, pass, &OpenGate);
        }
        serve_next(rt, alloc, self, shared, pass);
        if shared.served.lock(rt).len() == 2 {
            self.stop(rt);
        }
    }
}

/// Serves the next of the clients that wait, and notes how its session ended.
fn serve_next<M: CallLedger, K: CallLedger, R: Wait>(
    rt: &R,
    alloc: Global,
    hall: &OpenHall<M, K>,
    shared: &Shared,
    pass: &mut Pass<M>,
)
    requires { pass.old.hall ≡ hall.now.id }
    ensures { pass.new.hall ≡ pass.old.hall }
{
    let next = shared.waiting.lock(rt).pop();
    if let Some(mut client) = next {
        client.end = Some(session(rt, alloc, hall, pass, &NoShelf, &mut client.wire));
        let _ = shared.served.lock(rt).push(client);
    }
}

/// Lets each pass take part in a thread of its own.
fn take_part_all<W, M, R>(
    rt: &R,
    alloc: Global,
    hall: &W,
    shared: &Shared,
    passes: &mut Vec<Pass<M>>,
)
where
    W: SessionHall<M> + Sync,
    M: CallLedger + Send + Sync,
    R: Threads + Wait + Sync,
    requires { All (λ p. p.hall ≡ W.id_of hall.now) passes.old.items }
    ensures { All (λ p. p.hall ≡ W.id_of hall.now) passes.new.items }
{
    let waiting = mem::replace(passes, Vec::new(alloc));
    let done = thread::map_vec(
        rt,
        waiting,
        &|mut pass: Pass<M>| -> Pass<M>
            requires { pass.hall ≡ W.id_of hall.now }
            ensures { result.hall ≡ W.id_of hall.entry.now }
        {
            hall.take_part(rt, alloc, shared, &mut pass);
            pass
        },
    );
    if let Ok(done) = done {
        *passes = done;
    }
}

/// Serves the clients of a new hall of two slots, in which a worker works on pieces of one trial. What the hall reports
/// at its end.
fn served_in<M, K, R>(
    rt: &R,
    alloc: Global,
    shared: &Shared,
    made: Blank,
    kept: Blank,
) -> Result<Report, Fail>
where
    M: CallLedger + Send + Sync,
    K: CallLedger + Send + Sync,
    R: Threads + Wait + Sync,
    requires made { (made.name ≡ M.name) × (made.parts ≡ M.parts) × (M.all ≡ M.parts) × (M.all ≡ 3) }
    requires kept { (kept.name ≡ K.name) × (kept.parts ≡ K.parts) × (K.all ≡ K.parts) × (K.all ≡ 2)
        × (K.opening ≡ None) }
{
    let started = Hall::start(alloc, 2, 3, 1, Blanks { made, kept });
    let (hall, mut passes): (OpenHall<M, K>, Vec<Pass<M>>) = started?;
    take_part_all(rt, alloc, &hall, shared, &mut passes);
    match hall.close(alloc, passes) {
        Ok(report) => Ok(report),
        Err(_) => Err("the hall was not closed")?,
    }
}

/// Two clients that were served at once, in any order, and what the hall reported at its end.
#[derive(Drop)]
pub(crate) struct Served {
    clients: Vec<Client>,
    report: Report,
}

impl Served {
    /// How the session of the client of this number ended, and what its wire took.
    pub(crate) fn end_of(&self, number: u64) -> Option<(SessionEnd, &[u8])> {
        let client = self.clients.iter().find(|client| client.number == number)?;
        Some((client.end?, client.wire.taken()))
    }
}

/// Serves two clients over these wires.
pub(crate) fn serve_two<R: Threads + Wait + Sync>(
    rt: &R,
    alloc: Global,
    first: FaultyWire,
    second: FaultyWire,
) -> Result<Served, Fail> {
    let waiting = Vec::from_array(alloc, [Client::new(0, first), Client::new(1, second)])?;
    let shared = Shared {
        begun: AtomicU64::new(0),
        waiting: Mutex::new(waiting),
        served: Mutex::new(Vec::new(alloc)),
    };
    let (made, kept) = (Blank::new(3), Blank::new(2));
    let report = served_in::<Brand, Brand, R>(rt, alloc, &shared, made, kept)?;
    let clients = shared.served.into_inner();
    Ok(Served { clients, report })
}

/// How many calls the history of a study of two trials has, whose table is asked for this many times.
fn calls_for<R: Threads + Wait + Sync>(
    rt: &R,
    alloc: Global,
    times: usize,
) -> Result<Option<u64>, Fail> {
    let mut sent = Vec::new(alloc);
    for _ in 0..times {
        sent.extend_from_slice(SUBMIT)?;
        sent.extend_from_slice(PLAN)?;
    }
    let wire = FaultyWire::new(alloc, sent, 5000, 5000, 0);
    let none = FaultyWire::new(alloc, Vec::new(alloc), 1, 5000, 0);
    let served = serve_two(rt, alloc, wire, none)?;
    Ok(served.report.as_slice().first().map(|slot| slot.calls()))
}

#[test]
fn a_table_that_is_asked_for_again_makes_no_further_calls(rt: HostRuntime) -> Result<(), Fail> {
    for times in 1..4 {
        assert!(rt; calls_for(&rt, rt.alloc(), times)? == Some(3));
    }
    Ok(())
}
