//! The threads of a server: each worker and each session has one, and a pass of the hall.
ghost use Rattle.std.specs.Prelude.{◌≡◌, ◌≤◌, ◌+◌, ◌-◌, Bool, true, length, All, IfOk, IfErr};
ghost use Rattle.atomic_table.specs.Seated.{TableId};
ghost use Rattle.cut_server.specs.Serve.{Calls, Listens, called};
ghost use Rattle.cut_server.specs.inside.Serve.{IsOfThreads};

use cut_book::Shelf;
use cut_commands::CliFault;
use cut_disks::Disk;
use cut_hall::{CallLedger, Hall, OpenGate, Pass};
use cut_session::session;
use cut_wires::Wire;
use std::alloc::Global;
use std::snapshot::Snapshot;
use std::sync::Wait;
use std::thread::{self, Promise, PromisedHandle, Scope, Threads, join_promised};
use thiserror::Error;

/// No connection came.
#[derive(Clone, Copy, Debug, PartialEq, Eq, Error)]
#[error("no connection came")]
pub struct ListenFault;

/// What a server's connections come from. It counts the connections that it gave, and its calls that failed; at
/// 2^64 - 1 a count stays.
pub trait Listener {
    /// The wire of a client.
    type Connection: Wire + Send + Drop;

    /// How many connections it gave, and how many of its calls failed.
    ghost calls: { Self → Calls };

    /// Waits for the next connection.
    fn accept(&mut self) -> Result<Self::Connection, ListenFault>
        ensures { calls self.new ≡ called result (calls self.old) };

    /// Refuses the clients that wait for a connection, and all later ones.
    fn close(&mut self)
        ensures { calls self.new ≡ calls self.old };
}

/// That a pass which comes back is of the hall that it was of.
#[derive(Drop)]
struct SameHall<M: CallLedger>(Snapshot<Pass<M>>);

impl<M: CallLedger> Promise<Pass<M>> for SameHall<M> {
    ghost kept_by = { λ p back. back.hall ≡ p.0.value.hall };
}

/// A thread that gives its pass back.
type Attendance<M> = PromisedHandle<Pass<M>, SameHall<M>>;

/// A hall as the threads of a server share it.
pub(crate) trait ServerHall {
    /// What its studies are kept on.
    type Disk: Disk + Send;

    /// The ledger of the calls that its passes make.
    type Made: CallLedger + Send + Sync;

    /// Which hall it is.
    ghost id_of: { Self → TableId };

    /// Whether the slips that its studies begin with are those that their trials give.
    ghost is_trusted: { Self → Bool };

    /// Works on all studies until the work is ended.
    fn work_with<R: Wait>(&self, rt: &R, alloc: Global, pass: &mut Pass<Self::Made>)
        requires { pass.old.hall ≡ id_of self.now }
        ensures { pass.new.hall ≡ pass.old.hall };

    /// Serves a client until its session ends.
    fn serve_with<S, W, R>(
        &self,
        rt: &R,
        alloc: Global,
        pass: &mut Pass<Self::Made>,
        shelf: &S,
        wire: &mut W,
    )
    where
        S: Shelf<Self::Disk>,
        W: Wire,
        R: Wait,
        requires own { pass.old.hall ≡ id_of self.now }
        requires trusted { is_trusted self.now ≡ true → S.is_true shelf.now ≡ true }
        ensures { pass.new.hall ≡ pass.old.hall };

    /// Ends the work.
    fn end_work<R: Wait>(&self, rt: &R);
}

impl<D, M, K> ServerHall for Hall<D, M, K>
where
    D: Disk + Drop + Send,
    M: CallLedger + Send + Sync,
    K: CallLedger,
{
    type Disk = D;

    type Made = M;

    ghost id_of = { λ h. h.id };

    ghost is_trusted = { λ h. h.is_trusted };

    fn work_with<R: Wait>(&self, rt: &R, alloc: Global, pass: &mut Pass<M>) {
        self.work(rt, alloc, pass, &OpenGate);
    }

    fn serve_with<S, W, R>(
        &self,
        rt: &R,
        alloc: Global,
        pass: &mut Pass<M>,
        shelf: &S,
        wire: &mut W,
    )
    where
        S: Shelf<D>,
        W: Wire,
        R: Wait,
    {
        let _end = session(rt, alloc, self, pass, shelf, wire);
    }

    fn end_work<R: Wait>(&self, rt: &R) {
        self.stop(rt);
    }
}

/// The threads of the workers, and the passes of the sessions that have ended.
#[derive(Drop)]
struct EndedThreads<M: CallLedger> {
    workers: Vec<Attendance<M>>,
    served: Vec<Pass<M>>,
}

/// What the threads of a server share: the hall, and the shelf on which its studies are kept.
#[derive(Drop)]
pub(crate) struct ServerEnv<'a, H, S, R> {
    pub(crate) rt: &'a R,
    pub(crate) alloc: Global,
    pub(crate) hall: &'a H,
    pub(crate) shelf: &'a S,
}

/// Lets this many passes work, each in a thread of its own, and serves a connection with each of the others. Once
/// the sessions have ended the work is ended, and all passes come back.
pub(crate) fn run_threads<H, S, L, R>(
    site: &ServerEnv<'_, H, S, R>,
    listener: L,
    passes: Vec<Pass<H::Made>>,
    workers: u32,
) -> (L, Result<Vec<Pass<H::Made>>, CliFault>)
where
    H: ServerHall + Sync,
    S: Shelf<H::Disk> + Sync,
    L: Listener + Drop,
    R: Threads + Wait + Sync,
    requires own { All (λ p. p.hall ≡ H.id_of site.now.hall.now) passes.items }
    requires trusted { H.is_trusted site.now.hall.now ≡ true → S.is_true site.now.shelf.now ≡ true }
    requires few { workers ≤ length passes.items }
    ensures own { IfOk result.1 (λ back. All (λ p. p.hall ≡ H.id_of site.now.hall.now) back.items) }
    ensures whole { IfOk result.1 (λ back. length back.items ≡ length passes.items) }
    ensures why { IfErr result.1 IsOfThreads }
    ensures listens { Listens (length passes.items - workers) result.1 (L.calls listener) (L.calls result.0) }
{
    let rt = site.rt;
    thread::scope(
        thread::scope_env(),
        rt,
        |scope| -> (L, Result<Vec<Pass<H::Made>>, CliFault>)
            requires own { All (λ p. p.hall ≡ H.id_of site.now.hall.now) passes.items }
            requires trusted { H.is_trusted site.now.hall.now ≡ true → S.is_true site.now.shelf.now ≡ true }
            requires few { workers ≤ length passes.items }
            ensures own { IfOk result.1 (λ back. All (λ p. p.hall ≡ H.id_of site.entry.now.hall.now) back.items) }
            ensures whole { IfOk result.1 (λ back. length back.items ≡ length passes.items) }
            ensures why { IfErr result.1 IsOfThreads }
            ensures listens { Listens (length passes.items - workers) result.1 (L.calls listener) (L.calls result.0) }
        {
            let mut listener = listener;
            let finished = run_in_scope(scope, site, &mut listener, passes, workers);
            site.hall.end_work(rt);
            match finished {
                Ok(finished) => (listener, join_workers(rt, finished)),
                Err(fault) => (listener, Err(fault)),
            }
        },
    )
}

/// The threads of the workers and those of the sessions.
#[derive(Drop)]
struct RunningThreads<M: CallLedger> {
    workers: Vec<Attendance<M>>,
    sessions: Vec<Attendance<M>>,
}

/// Starts the workers and the sessions, turns away who comes later, and waits until all sessions have ended.
fn run_in_scope<'s, E, H, S, L, R>(
    scope: &Scope<'s, E>,
    site: &ServerEnv<'s, H, S, R>,
    listener: &mut L,
    passes: Vec<Pass<H::Made>>,
    workers: u32,
) -> Result<EndedThreads<H::Made>, CliFault>
where
    H: ServerHall + Sync,
    S: Shelf<H::Disk> + Sync,
    L: Listener,
    L::Connection: 's,
    R: Threads + Wait + Sync,
    requires own { All (λ p. p.hall ≡ H.id_of site.now.hall.now) passes.items }
    requires trusted { H.is_trusted site.now.hall.now ≡ true → S.is_true site.now.shelf.now ≡ true }
    requires few { workers ≤ length passes.items }
    ensures workers { IfOk result (λ a. All (λ h. h.promise.0.value.hall ≡ H.id_of site.now.hall.now) a.workers.items) }
    ensures served { IfOk result (λ a. All (λ p. p.hall ≡ H.id_of site.now.hall.now) a.served.items) }
    ensures whole { IfOk result (λ a. length a.workers.items + length a.served.items ≡ length passes.items) }
    ensures why { IfErr result IsOfThreads }
    ensures listens { Listens (length passes.items - workers) result (L.calls listener.old) (L.calls listener.new) }
{
    let started = start_all(scope, site, listener, passes, workers);
    listener.close();
    let RunningThreads { workers, sessions } = started?;
    let Ok(served) = join_promised(site.rt, sessions) else {
        return Err(CliFault::WorkMemory);
    };
    Ok(EndedThreads { workers, served })
}

/// Starts the workers, and a session with each of the passes that are left.
fn start_all<'s, E, H, S, L, R>(
    scope: &Scope<'s, E>,
    site: &ServerEnv<'s, H, S, R>,
    listener: &mut L,
    passes: Vec<Pass<H::Made>>,
    workers: u32,
) -> Result<RunningThreads<H::Made>, CliFault>
where
    H: ServerHall + Sync,
    S: Shelf<H::Disk> + Sync,
    L: Listener,
    L::Connection: 's,
    R: Threads + Wait + Sync,
    requires own { All (λ p. p.hall ≡ H.id_of site.now.hall.now) passes.items }
    requires trusted { H.is_trusted site.now.hall.now ≡ true → S.is_true site.now.shelf.now ≡ true }
    requires few { workers ≤ length passes.items }
    ensures workers { IfOk result (λ s. All (λ h. h.promise.0.value.hall ≡ H.id_of site.now.hall.now) s.workers.items) }
    ensures sessions { IfOk result (λ s. All (λ h. h.promise.0.value.hall
        ≡ H.id_of site.now.hall.now) s.sessions.items) }
    ensures whole { IfOk result (λ s.
        length s.workers.items + length s.sessions.items ≡ length passes.items) }
    ensures why { IfErr result IsOfThreads }
    ensures listens { Listens (length passes.items - workers) result (L.calls listener.old) (L.calls listener.new) }
{
    let mut passes = passes;
    let workers = start_workers(scope, site, &mut passes, workers)?;
    let sessions = start_sessions(scope, site, listener, passes)?;
    Ok(RunningThreads { workers, sessions })
}

/// Starts this many workers, each with one of the passes.
fn start_workers<'s, E, H, S, R>(
    scope: &Scope<'s, E>,
    site: &ServerEnv<'s, H, S, R>,
    passes: &mut Vec<Pass<H::Made>>,
    count: u32,
) -> Result<Vec<Attendance<H::Made>>, CliFault>
where
    H: ServerHall + Sync,
    R: Threads + Wait + Sync,
    requires own { All (λ p. p.hall ≡ H.id_of site.now.hall.now) passes.old.items }
    requires few { count ≤ length passes.old.items }
    ensures rest { All (λ p. p.hall ≡ H.id_of site.now.hall.now) passes.new.items }
    ensures own { IfOk result (λ started. All (λ h. h.promise.0.value.hall ≡ H.id_of site.now.hall.now) started.items) }
    ensures many { IfOk result (λ started. length started.items ≡ count) }
    ensures whole { IfOk result (λ started. length started.items + length passes.new.items ≡ length passes.old.items) }
    ensures why { IfErr result (λ e. e ≡ CliFault.WorkMemory) }
{
    let (rt, alloc, hall) = (site.rt, site.alloc, site.hall);
    let Ok(mut started) = Vec::with_capacity(alloc, count as usize) else {
        return Err(CliFault::WorkMemory);
    };
    for _ in 0..count {
        let Some(mut pass) = passes.pop() else {
            unreachable!()
        };
        let promise = SameHall(Snapshot::of(&pass));
        let worker = scope.spawn_with(
            promise,
            move || -> Pass<H::Made>
                requires { pass.hall ≡ H.id_of hall.now }
                ensures { result.hall ≡ pass.hall }
            {
                hall.work_with(rt, alloc, &mut pass);
                pass
            },
        );
        let Ok(worker) = worker else {
            return Err(CliFault::WorkMemory);
        };
        started.push_reserved(worker);
    }
    Ok(started)
}

/// Starts a session with each of the passes, as the connections come.
fn start_sessions<'s, E, H, S, L, R>(
    scope: &Scope<'s, E>,
    site: &ServerEnv<'s, H, S, R>,
    listener: &mut L,
    passes: Vec<Pass<H::Made>>,
) -> Result<Vec<Attendance<H::Made>>, CliFault>
where
    H: ServerHall + Sync,
    S: Shelf<H::Disk> + Sync,
    L: Listener,
    L::Connection: 's,
    R: Threads + Wait + Sync,
    requires own { All (λ p. p.hall ≡ H.id_of site.now.hall.now) passes.items }
    requires trusted { H.is_trusted site.now.hall.now ≡ true → S.is_true site.now.shelf.now ≡ true }
    ensures own { IfOk result (λ started. All (λ h. h.promise.0.value.hall ≡ H.id_of site.now.hall.now) started.items) }
    ensures whole { IfOk result (λ started. length started.items ≡ length passes.items) }
    ensures why { IfErr result IsOfThreads }
    ensures listens { Listens (length passes.items) result (L.calls listener.old) (L.calls listener.new) }
{
    let (rt, alloc, hall, shelf) = (site.rt, site.alloc, site.hall, site.shelf);
    let Ok(mut started) = Vec::with_capacity(alloc, passes.len()) else {
        return Err(CliFault::WorkMemory);
    };
    for mut pass in passes {
        let mut wire = match listener.accept() {
            Ok(wire) => wire,
            Err(_) => return Err(CliFault::Socket),
        };
        let promise = SameHall(Snapshot::of(&pass));
        let session = scope.spawn_with(
            promise,
            move || -> Pass<H::Made>
                requires own { pass.hall ≡ H.id_of hall.now }
                requires trusted { H.is_trusted hall.now ≡ true → S.is_true shelf.now ≡ true }
                ensures { result.hall ≡ pass.hall }
            {
                hall.serve_with(rt, alloc, &mut pass, shelf, &mut wire);
                pass
            },
        );
        let Ok(session) = session else {
            return Err(CliFault::WorkMemory);
        };
        started.push_reserved(session);
    }
    Ok(started)
}

/// All passes, once the workers have ended.
fn join_workers<M, R>(rt: &R, finished: EndedThreads<M>) -> Result<Vec<Pass<M>>, CliFault>
where
    M: CallLedger,
    R: Threads,
    ensures own { (hall : TableId) → All (λ h. h.promise.0.value.hall ≡ hall) finished.workers.items
        → All (λ p. p.hall ≡ hall) finished.served.items
        → IfOk result (λ back. All (λ p. p.hall ≡ hall) back.items) }
    ensures whole { IfOk result (λ back.
        length back.items ≡ length finished.workers.items + length finished.served.items) }
    ensures why { IfErr result (λ e. e ≡ CliFault.WorkMemory) }
{
    let EndedThreads {
        workers,
        mut served,
    } = finished;
    let Ok(mut passes) = join_promised(rt, workers) else {
        return Err(CliFault::WorkMemory);
    };
    match passes.append(&mut served) {
        Ok(()) => Ok(passes),
        Err(_) => Err(CliFault::WorkMemory),
    }
}
