//! Halls for sessions, in which a worker did some pieces before, or all.
ghost use Rattle.std.specs.Prelude.{true, ◌≡◌, ◌<◌, ◌≤◌};

use cut_book::Shelf;
use cut_disks::FaultyDisk;
use cut_hall::{Blanks, CallLedger, Gate, Hall, Pass};
use cut_outcome::Piece;
use cut_plan::Plan;
use cut_session::{SessionEnd, session};
use cut_wires::FaultyWire;
use std::alloc::Global;
use std::marker::Brand;
use std::sync::Wait;
use std::sync::atomic::{AtomicU64, Ordering};
use std::sync::ledger::Blank;
use std::test::Fail;

/// A hall whose disks may fail.
type Stormy<M, K> = Hall<FaultyDisk, M, K>;

/// A wire over these bytes, of which `per` come at once, on which no call fails.
pub(crate) fn wire_over(alloc: Global, input: Vec<u8>, per: usize) -> FaultyWire {
    FaultyWire::new(alloc, input, per, usize::MAX, 0)
}

/// A hall for a session: how many slots it has, how many trials a piece has at most, and how many pieces of
/// the studies that were submitted before are worked on.
#[derive(Clone, Copy)]
pub(crate) struct House {
    pub slots: u32,
    pub size: u32,
    pub pieces: u64,
}

/// A hall for a session, the text of the plan whose study is submitted to it before, and where its disk comes from.
#[derive(Drop)]
struct Scene<'a, S> {
    house: House,
    before: &'a [u8],
    shelf: &'a S,
}

/// Gate that end the work in its hall once the last worker has passed.
#[derive(Drop)]
struct LastGate<'h, M: CallLedger, K: CallLedger> {
    hall: &'h Stormy<M, K>,
    passed: AtomicU64,
    last: u64,
}

impl<M: CallLedger, K: CallLedger> Gate for LastGate<'_, M, K> {
    fn pass<R: Wait>(&self, rt: &R, _piece: Piece) {
        if self.passed.fetch_add(1, Ordering::SeqCst) >= self.last {
            self.hall.stop(rt);
        }
    }
}

/// Submits the study that comes before the session, and works on some pieces of it, if any. Then the hall is stopped.
fn work_through<M, K, S, R>(
    rt: &R,
    alloc: Global,
    hall: &Stormy<M, K>,
    pass: &mut Pass<M>,
    scene: &Scene<'_, S>,
)
where
    M: CallLedger,
    K: CallLedger,
    S: Shelf<FaultyDisk>,
    R: Wait,
    requires own { pass.old.hall ≡ hall.now.id }
    requires trusted { S.is_true scene.now.shelf.now ≡ true }
{
    submit(rt, alloc, hall, pass, scene.shelf, scene.before);
    if scene.house.pieces > 0 {
        let gate = LastGate {
            hall,
            passed: AtomicU64::new(0),
            last: scene.house.pieces - 1,
        };
        hall.work(rt, alloc, pass, &gate);
    }
}

/// Submits the study of a plan's text, if it is one.
fn submit<M, K, S, R>(
    rt: &R,
    alloc: Global,
    hall: &Stormy<M, K>,
    pass: &mut Pass<M>,
    shelf: &S,
    text: &[u8],
)
where
    M: CallLedger,
    K: CallLedger,
    S: Shelf<FaultyDisk>,
    R: Wait,
    requires own { pass.old.hall ≡ hall.now.id }
    requires trusted { S.is_true shelf.now ≡ true }
    ensures { pass.new.hall ≡ pass.old.hall }
{
    if let Ok(plan) = Plan::from_json(alloc, text) {
        let _ = hall.submit(rt, alloc, pass, plan, shelf);
    }
}

/// A session over this wire, in a new hall.
fn served<M, K, S, R>(
    rt: &R,
    alloc: Global,
    scene: &Scene<'_, S>,
    wire: &mut FaultyWire,
    made: Blank,
    kept: Blank,
) -> Result<SessionEnd, Fail>
where
    M: CallLedger,
    K: CallLedger,
    S: Shelf<FaultyDisk>,
    R: Wait,
    requires slots { (0 < scene.now.house.slots) × (scene.now.house.slots ≤ 64) }
    requires size { 1 ≤ scene.now.house.size }
    requires trusted { S.is_true scene.now.shelf.now ≡ true }
    requires made { (made.name ≡ M.name) × (made.parts ≡ M.parts) × (M.all ≡ M.parts) × (M.all ≡ 2) }
    requires kept { (kept.name ≡ K.name) × (kept.parts ≡ K.parts)
        × (K.all ≡ K.parts) × (K.all ≡ scene.now.house.slots) × (K.opening ≡ None) }
{
    let House { slots, size, .. } = scene.house;
    let started = Hall::start(alloc, slots, 2, size, Blanks { made, kept });
    let (hall, mut passes): (Stormy<M, K>, Vec<Pass<M>>) = started?;
    let Some(mut first) = passes.pop() else {
        unreachable!()
    };
    let Some(mut second) = passes.pop() else {
        unreachable!()
    };
    work_through(rt, alloc, &hall, &mut first, scene);
    Ok(session(rt, alloc, &hall, &mut second, scene.shelf, wire))
}

/// How a session ends over this wire, in a hall to which the study of a plan's text was submitted before, if it is one.
pub(crate) fn serve<S, R>(
    rt: &R,
    alloc: Global,
    house: House,
    before: &[u8],
    shelf: &S,
    wire: &mut FaultyWire,
) -> Result<SessionEnd, Fail>
where
    S: Shelf<FaultyDisk>,
    R: Wait,
    requires slots { (0 < house.slots) × (house.slots ≤ 64) }
    requires size { 1 ≤ house.size }
    requires trusted { S.is_true shelf.now ≡ true }
{
    let scene = Scene {
        house,
        before,
        shelf,
    };
    let kept = Blank::new(u64::from(house.slots));
    served::<Brand, Brand, S, R>(rt, alloc, &scene, wire, Blank::new(2), kept)
}
