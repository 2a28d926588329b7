//! Storms: three threads do what was drawn for them in one hall, in whatever order it comes.
ghost use Rattle.std.specs.Prelude.{◌≡◌, ◌<◌, ◌≤◌, None, All};
ghost use Rattle.atomic_table.specs.Seated.{TableId};

use crate::hall::deeds::{Brittle, Deed, End, Guest, Stormy, Tools, close_hall, put_back};
use cut_hall::{Blanks, CallLedger, Hall, OpenGate, Pass, Report};
use cut_plan::{Plan, PlanFault};
use cut_pool_cases::{Study, TWO_CELLS, studies};
use rand_chacha::ChaCha8Rng;
use rand_core::SeedableRng;
use rand_core::utils::NextWord;
use std::alloc::Global;
use std::marker::Brand;
use std::process::Abort;
use std::sync::atomic::{AtomicU64, Ordering};
use std::sync::ledger::Blank;
use std::sync::{Mutex, Wait};
use std::test::Fail;
use std::thread::{Threads, join_mut};
use std::time::{Clock, Duration, Instant};
use std::{mem, thread};

/// How many deeds each thread does that is no worker.
const DEEDS: usize = 12;

/// What was drawn for a storm.
#[derive(Clone, Copy)]
struct Storm {
    /// The stream of the first thread's deeds.
    stream: u64,
    slots: u32,
    piece_size: u32,
    shelf: Brittle,
    /// Whether the third thread is a worker, so that the others may wait for lines without working.
    has_worker: bool,
    /// Whether no disk fails, no piece is lost and no work is ended.
    is_calm: bool,
}

/// What is drawn for a storm of this number. Each second one is calm, and half of each have a worker.
fn drawn_storm(number: u32) -> Storm
    ensures { (0 < result.slots) × (result.slots ≤ 64) × (1 ≤ result.piece_size) }
{
    let stream = 4 * u64::from(number);
    let mut words = ChaCha8Rng::from_seed([1; 32]);
    words.set_stream(stream);
    let is_calm = number % 2 == 0;
    let fail_at = if is_calm {
        0
    } else {
        u64::from(words.next_word() % 50)
    };
    Storm {
        stream,
        slots: 2 + words.next_word() % 3,
        piece_size: 1 + words.next_word() % 2,
        shelf: Brittle { fail_at },
        has_worker: number % 4 < 2,
        is_calm,
    }
}

/// One of four studies of at least three cells each.
fn long_study(number: u32) -> Study {
    let place = (number % 4) as usize;
    studies().get(place).copied().unwrap_or(TWO_CELLS)
}

/// A deed that is drawn, for one of the long studies that is drawn.
fn drawn_deed(words: &mut ChaCha8Rng, storm: Storm) -> (Study, Deed) {
    let study = long_study(words.next_word());
    let cell = words.next_word() % 3;
    let deed = match words.next_word() % 20 {
        0..=5 if storm.has_worker => Deed::Wait(cell),
        0..=11 => Deed::Row(cell),
        12 => Deed::WorkOff,
        13 if !storm.is_calm => Deed::Lose(u64::from(cell)),
        14 if !storm.is_calm => Deed::Stop,
        _ => Deed::Count,
    };
    (study, deed)
}

/// Works off each of the long studies that has a slot.
fn work_off_all<M: CallLedger, K: CallLedger, R: Wait>(
    guest: &Guest<'_, M, K, R>,
    shelf: Brittle,
    pass: &mut Pass<M>,
)
    requires { pass.old.hall ≡ guest.now.hall.now.id }
    ensures { pass.new.hall ≡ pass.old.hall }
{
    for number in 0..4 {
        guest.act(pass, &shelf, long_study(number), Deed::WorkOff);
    }
}

/// Does the deeds of the thread of this number, from 0, and notes how each ended. A worker works on all
/// studies, and in a calm storm the others work them off at the end.
fn play<M: CallLedger, K: CallLedger, R: Wait>(
    guest: &Guest<'_, M, K, R>,
    shared: &Shared,
    number: u64,
    pass: &mut Pass<M>,
)
    requires { pass.old.hall ≡ guest.now.hall.now.id }
    ensures { pass.new.hall ≡ pass.old.hall }
{
    let storm = shared.storm;
    if storm.has_worker && number == 2 {
        return guest.hall.work(guest.rt, guest.alloc, pass, &OpenGate);
    }
    let mut words = ChaCha8Rng::from_seed([0; 32]);
    words.set_stream(storm.stream.wrapping_add(number));
    for _ in 0..DEEDS {
        let (study, deed) = drawn_deed(&mut words, storm);
        let end = guest.act(pass, &storm.shelf, study, deed);
        let _ = shared.ends.lock(guest.rt).push(end);
    }
    if storm.is_calm {
        work_off_all(guest, storm.shelf, pass);
    }
}

/// What the threads of a storm share beside their hall.
#[derive(Drop)]
struct Shared {
    storm: Storm,
    begun: AtomicU64,
    ended: AtomicU64,
    ends: Mutex<Vec<End>>,
}

impl Shared {
    /// Nothing has begun yet.
    fn new(alloc: Global, storm: Storm) -> Shared {
        Shared {
            storm,
            begun: AtomicU64::new(0),
            ended: AtomicU64::new(0),
            ends: Mutex::new(Vec::new(alloc)),
        }
    }

    /// How many threads do deeds of their own, and are no workers.
    fn clients(&self) -> u64 {
        if self.storm.has_worker { 2 } else { 3 }
    }
}

/// A hall as the threads of a storm share it.
trait Arena<M: CallLedger> {
    ghost id_of: { Self → TableId };

    /// Does the deeds of the next thread. If it is the last one that is no worker, it ends the work.
    fn play_next<R: Wait>(&self, rt: &R, alloc: Global, shared: &Shared, pass: &mut Pass<M>)
        requires { pass.old.hall ≡ id_of self.now }
        ensures { pass.new.hall ≡ id_of self.now };
}

impl<M: CallLedger, K: CallLedger> Arena<M> for Stormy<M, K> {
    ghost id_of = { λ h. h.id };

    fn play_next<R: Wait>(&self, rt: &R, alloc: Global, shared: &Shared, pass: &mut Pass<M>) {
        let number = shared.begun.fetch_add(1, Ordering::SeqCst);
        let guest = Guest {
            rt,
            alloc,
            hall: self,
        };
        play(&guest, shared, number, pass);
        if shared
            .ended
            .fetch_add(1, Ordering::SeqCst)
            .saturating_add(1)
            == shared.clients()
        {
            self.stop(rt);
        }
    }
}

/// Waits until three threads have ended, for 30,000 turns of a millisecond at most.
fn keep_time<R: Abort + Clock>(rt: &R, shared: &Shared) {
    for _ in 0..30_000 {
        if shared.ended.load(Ordering::SeqCst) == 3 {
            return;
        }
        rt.sleep(Duration::from_millis(1));
    }
    panic!(rt; "a thread of the storm did not come back")
}

/// Lets each pass play in a thread of its own.
fn play_all<A, M, R>(rt: &R, alloc: Global, arena: &A, shared: &Shared, passes: &mut Vec<Pass<M>>)
where
    A: Arena<M> + Sync,
    M: CallLedger + Send + Sync,
    R: Threads + Wait + Sync,
    requires { All (λ p. p.hall ≡ A.id_of arena.now) passes.old.items }
    ensures { All (λ p. p.hall ≡ A.id_of arena.now) passes.new.items }
{
    let waiting = mem::replace(passes, Vec::new(alloc));
    let played = thread::map_vec(
        rt,
        waiting,
        &|mut pass: Pass<M>| -> Pass<M>
            requires { pass.hall ≡ A.id_of arena.now }
            ensures { result.hall ≡ A.id_of arena.entry.now }
        {
            arena.play_next(rt, alloc, shared, &mut pass);
            pass
        },
    );
    if let Ok(played) = played {
        *passes = played;
    }
}

/// The same, while this thread keeps the time.
fn play_timed<A, M, R, T>(
    tools: Tools<'_, R>,
    arena: &A,
    shared: &Shared,
    passes: &mut Vec<Pass<M>>,
    keep: &mut T,
)
where
    A: Arena<M> + Sync,
    M: CallLedger + Send + Sync,
    R: Threads + Wait + Sync,
    T: FnMut(),
    requires own { All (λ p. p.hall ≡ A.id_of arena.now) passes.old.items }
    requires keep { T.pre keep.old }
    ensures { All (λ p. p.hall ≡ A.id_of arena.now) passes.new.items }
{
    let Tools { rt, alloc } = tools;
    let mut play = ||
        requires { All (λ p. p.hall ≡ A.id_of arena.now) passes.now.items }
        ensures { All (λ p. p.hall ≡ A.id_of arena.entry.now) passes.exit.now.items }
    { play_all(rt, alloc, arena, shared, passes) };
    join_mut(rt, &mut play, keep);
}

impl<M: CallLedger, K: CallLedger, R: Wait> Guest<'_, M, K, R> {
    /// The slot that has a study, and the trials of the study, if it has one.
    fn slot_of(
        &self,
        pass: &mut Pass<M>,
        shelf: Brittle,
        study: Study,
    ) -> Result<Option<(u32, u64)>, PlanFault>
        requires { pass.old.hall ≡ self.now.hall.now.id }
        ensures { pass.new.hall ≡ pass.old.hall }
    {
        let plan = Plan::from_json(self.alloc, study.plan.as_bytes())?;
        let trials = u64::from(plan.trials());
        match self.hall.submit(self.rt, self.alloc, pass, plan, &shelf) {
            Ok(opened) => Ok(Some((opened.study, trials))),
            Err(_) => Ok(None),
        }
    }
}

/// The slots that have the four studies, each with the trials of its study.
fn slots_of<M: CallLedger, K: CallLedger, R: Wait>(
    rt: &R,
    alloc: Global,
    hall: &Stormy<M, K>,
    pass: &mut Pass<M>,
    shelf: Brittle,
) -> Result<Vec<(u32, u64)>, Fail>
    requires { pass.old.hall ≡ hall.now.id }
    ensures { pass.new.hall ≡ pass.old.hall }
{
    let guest = Guest { rt, alloc, hall };
    let mut slots = Vec::new(alloc);
    for number in 0..4 {
        if let Some(slot) = guest.slot_of(pass, shelf, long_study(number))? {
            slots.push(slot)?;
        }
    }
    Ok(slots)
}

/// Whether of each slot no more trials were accepted than its study has, and all exactly if it is complete, as it is
/// after a calm storm.
fn is_right(report: &Report, slots: &[(u32, u64)], is_calm: bool) -> bool {
    slots.iter().all(|(slot, trials)| {
        match report.as_slice().get(*slot as usize) {
            Some(slot) if slot.complete() => slot.accepted() == *trials,
            Some(slot) => slot.accepted() < *trials && !is_calm,
            None => false,
        }
    })
}

/// Plays in a hall with three passes.
fn play_in<M, K, R>(
    rt: &R,
    alloc: Global,
    hall: &Stormy<M, K>,
    shared: &Shared,
    passes: &mut Vec<Pass<M>>,
)
where
    M: CallLedger + Send + Sync,
    K: CallLedger + Send + Sync,
    R: Threads + Wait + Abort + Clock + Sync,
    requires { All (λ p. p.hall ≡ hall.now.id) passes.old.items }
    ensures { All (λ p. p.hall ≡ hall.now.id) passes.new.items }
{
    let mut keep = || keep_time(rt, shared);
    play_timed(Tools { rt, alloc }, hall, shared, passes, &mut keep);
}

/// How the deeds of a storm ended, if its hall was closed as is right.
fn run_storm<M, K, R>(
    rt: &R,
    alloc: Global,
    storm: Storm,
    made: Blank,
    kept: Blank,
) -> Result<Vec<End>, Fail>
where
    M: CallLedger + Send + Sync,
    K: CallLedger + Send + Sync,
    R: Threads + Wait + Abort + Clock + Sync,
    requires storm { (0 < storm.slots) × (storm.slots ≤ 64) × (1 ≤ storm.piece_size) }
    requires made { (made.name ≡ M.name) × (made.parts ≡ M.parts) × (M.all ≡ M.parts) × (M.all ≡ 4) }
    requires kept { (kept.name ≡ K.name) × (kept.parts ≡ K.parts) × (K.all ≡ K.parts)
        × (K.all ≡ storm.slots) × (K.opening ≡ None) }
{
    let (hall, mut passes): (Stormy<M, K>, Vec<Pass<M>>) = Hall::start(
        alloc,
        storm.slots,
        4,
        storm.piece_size,
        Blanks { made, kept },
    )?;
    let Some(mut last) = passes.pop() else {
        unreachable!()
    };
    let shared = Shared::new(alloc, storm);
    play_in(rt, alloc, &hall, &shared, &mut passes);
    let slots = slots_of(rt, alloc, &hall, &mut last, storm.shelf)?;
    put_back(&hall, &mut passes, last)?;
    let report = close_hall(alloc, hall, passes)?;
    if !is_right(&report, slots.as_slice(), storm.is_calm) {
        return Err("a slot accepted other trials than those of its study")?;
    }
    Ok(shared.ends.into_inner())
}

/// Whether each deed of a storm ended as it may: in a calm one, with no fault but that there is no slot.
fn has_ended_well(storm: Storm, ends: &[End]) -> bool {
    let is_all = ends.len()
        == if storm.has_worker {
            2 * DEEDS
        } else {
            3 * DEEDS
        };
    let may_end = |end: &End| match end {
        End::Line | End::Worked(_) | End::Counted(_) | End::NoSlot => true,
        End::Noted(_) | End::Ended | End::Failed | End::Lost | End::Stopped => !storm.is_calm,
        End::Slot(_) | End::NotGiven | End::Mismatch | End::Wrong => false,
    };
    is_all && ends.iter().all(may_end)
}

/// How many seconds storms may take: as many are run as fit in this time, and the first one in any case.
const STORM_SECONDS: u64 = 20;

#[test]
fn storms_of_three_threads(rt: HostRuntime) -> Result<(), Fail> {
    let alloc = rt.alloc();
    let begun = Instant::now(&rt)?;
    for number in 0..400u32 {
        if number > 0 && begun.elapsed(&rt)? > Duration::from_secs(STORM_SECONDS) {
            break;
        }
        let storm = drawn_storm(number);
        let (made, kept) = (Blank::new(4), Blank::new(u64::from(storm.slots)));
        let ends = run_storm::<Brand, Brand, _>(&rt, alloc, storm, made, kept)?;
        assert!(rt; has_ended_well(storm, ends.as_slice()), "{number}");
    }
    Ok(())
}
