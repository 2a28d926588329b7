//! Threads that wait for a line which another thread keeps from coming: each is woken, and learns why.
ghost use Rattle.std.specs.Prelude.{◌≡◌, None};
ghost use Rattle.atomic_table.specs.Seated.{TableId};

use crate::hall::deeds::{Brittle, Deed, End, Guest, Stormy, Tools};
use cut_hall::{Blanks, CallLedger, Hall, Pass};
use cut_pool_cases::TWO_CELLS;
use std::alloc::Global;
use std::marker::Brand;
use std::process::Abort;
use std::sync::Wait;
use std::sync::atomic::{AtomicU64, Ordering};
use std::sync::ledger::Blank;
use std::test::Fail;
use std::thread::{Threads, join_mut};
use std::time::{Clock, Duration};

/// Why the second line can't come.
#[derive(Clone, Copy)]
enum Cause {
    /// Its only piece is given up.
    Loss,
    /// The hall is stopped.
    Stop,
    /// The disk fails in the append of its slip.
    Disk,
}

/// What keeps the second line from coming, after a pause of this many milliseconds; and where the study's disk comes from.
#[derive(Clone, Copy)]
struct Hindrance {
    cause: Cause,
    pause: u64,
    shelf: Brittle,
}

/// Keeps the second line from coming: how that ends.
fn hinder<M: CallLedger, K: CallLedger, R: Wait>(
    guest: &Guest<'_, M, K, R>,
    pass: &mut Pass<M>,
    hindrance: Hindrance,
) -> End
    requires { pass.old.hall ≡ guest.now.hall.now.id }
    ensures { pass.new.hall ≡ pass.old.hall }
{
    let deed = match hindrance.cause {
        Cause::Loss => Deed::LoseTwice(1),
        Cause::Stop => Deed::Stop,
        Cause::Disk => Deed::WorkOff,
    };
    guest.act(pass, &hindrance.shelf, TWO_CELLS, deed)
}

/// A hall as the thread that waits has it.
trait Desk<M: CallLedger> {
    /// Which hall it is.
    ghost id_of: { Self → TableId };

    /// Waits for the second line of the study.
    fn wait_for_second<R: Wait>(
        &self,
        rt: &R,
        alloc: Global,
        pass: &mut Pass<M>,
        shelf: Brittle,
    ) -> End
        requires { pass.old.hall ≡ id_of self.now }
        ensures { pass.new.hall ≡ pass.old.hall };
}

impl<M: CallLedger, K: CallLedger> Desk<M> for Stormy<M, K> {
    ghost id_of = { λ h. h.id };

    fn wait_for_second<R: Wait>(
        &self,
        rt: &R,
        alloc: Global,
        pass: &mut Pass<M>,
        shelf: Brittle,
    ) -> End {
        let guest = Guest {
            rt,
            alloc,
            hall: self,
        };
        guest.act(pass, &shelf, TWO_CELLS, Deed::Wait(1))
    }
}

/// A wait for the second line of a study whose disk comes from a shelf: 1 once it has ended.
#[derive(Drop)]
struct Vigil {
    shelf: Brittle,
    ended: AtomicU64,
}

/// Lets a thread wait for the second line, while this one goes on. Notes that the wait has ended.
fn wait_beside<H, M, R, F>(
    tools: Tools<'_, R>,
    hall: &H,
    waiter: &mut Pass<M>,
    vigil: &Vigil,
    go_on: &mut F,
) -> (End, End)
where
    H: Desk<M> + Sync,
    M: CallLedger + Send + Sync,
    R: Threads + Wait + Sync,
    F: FnMut() -> End,
    requires own { waiter.old.hall ≡ H.id_of hall.now }
    requires go_on { F.pre go_on.old }
    ensures own { waiter.new.hall ≡ H.id_of hall.now }
    ensures go_on { F.step go_on.old result.1 go_on.new }
{
    let Tools { rt, alloc } = tools;
    let mut wait = || -> End
        requires { waiter.now.hall ≡ H.id_of hall.now }
        ensures { waiter.exit.now.hall ≡ H.id_of hall.entry.now }
    {
        let end = hall.wait_for_second(rt, alloc, waiter, vigil.shelf);
        vigil.ended.store(1, Ordering::SeqCst);
        end
    };
    join_mut(rt, &mut wait, go_on)
}

/// Waits until a wait has ended, for 10,000 turns of a millisecond at most.
fn keep_time<R: Abort + Clock>(rt: &R, vigil: &Vigil) {
    for _ in 0..10_000 {
        if vigil.ended.load(Ordering::SeqCst) == 1 {
            return;
        }
        rt.sleep(Duration::from_millis(1));
    }
    panic!(rt; "who waited for a line was not woken")
}

/// Lets a thread wait for the second line, and keeps it from coming after a pause: how the wait ended, and how that
/// did.
fn woken<M, K, R>(
    guest: &Guest<'_, M, K, R>,
    waiter: &mut Pass<M>,
    other: &mut Pass<M>,
    hindrance: Hindrance,
) -> (End, End)
where
    M: CallLedger + Send + Sync,
    K: CallLedger + Send + Sync,
    R: Threads + Wait + Abort + Clock + Sync,
    requires waiter { waiter.old.hall ≡ guest.now.hall.now.id }
    requires other { other.old.hall ≡ guest.now.hall.now.id }
    ensures waiter { waiter.new.hall ≡ guest.now.hall.now.id }
    ensures other { other.new.hall ≡ guest.now.hall.now.id }
{
    let Guest { rt, alloc, hall } = *guest;
    let vigil = Vigil {
        shelf: hindrance.shelf,
        ended: AtomicU64::new(0),
    };
    let mut go_on = || -> End
        requires { other.now.hall ≡ guest.now.hall.now.id }
        ensures { other.exit.now.hall ≡ guest.entry.now.hall.now.id }
    {
        rt.sleep(Duration::from_millis(hindrance.pause));
        let end = hinder(guest, other, hindrance);
        keep_time(rt, &vigil);
        end
    };
    wait_beside(Tools { rt, alloc }, hall, waiter, &vigil, &mut go_on)
}

/// How it ends to ask for the first line.
fn first_line<M: CallLedger, K: CallLedger, R: Wait>(
    guest: &Guest<'_, M, K, R>,
    pass: &mut Pass<M>,
    shelf: Brittle,
) -> End
    requires { pass.old.hall ≡ guest.now.hall.now.id }
    ensures { pass.new.hall ≡ pass.old.hall }
{
    guest.act(pass, &shelf, TWO_CELLS, Deed::Row(0))
}

/// How it ends to wait for the second line, and to keep it from coming, if the first line comes before and after.
fn woken_between<M, K, R>(
    guest: &Guest<'_, M, K, R>,
    waiter: &mut Pass<M>,
    other: &mut Pass<M>,
    hindrance: Hindrance,
) -> Option<(End, End)>
where
    M: CallLedger + Send + Sync,
    K: CallLedger + Send + Sync,
    R: Threads + Wait + Abort + Clock + Sync,
    requires waiter { waiter.old.hall ≡ guest.now.hall.now.id }
    requires other { other.old.hall ≡ guest.now.hall.now.id }
{
    let before = first_line(guest, other, hindrance.shelf);
    let ends = woken(guest, waiter, other, hindrance);
    let after = first_line(guest, other, hindrance.shelf);
    (before == End::Line && after == End::Line).then_some(ends)
}

/// The same in a new hall of one slot.
fn woken_in<M, K, R>(
    rt: &R,
    alloc: Global,
    hindrance: Hindrance,
    made: Blank,
    kept: Blank,
) -> Result<Option<(End, End)>, Fail>
where
    M: CallLedger + Send + Sync,
    K: CallLedger + Send + Sync,
    R: Threads + Wait + Abort + Clock + Sync,
    requires made { (made.name ≡ M.name) × (made.parts ≡ M.parts) × (M.all ≡ M.parts) × (M.all ≡ 2) }
    requires kept { (kept.name ≡ K.name) × (kept.parts ≡ K.parts) × (K.all ≡ K.parts) × (K.all ≡ 1)
        × (K.opening ≡ None) }
{
    let (hall, mut passes): (Stormy<M, K>, Vec<Pass<M>>) = Hall::start(
        alloc,
        1,
        2,
        1,
        Blanks { made, kept },
    )?;
    let Some(mut waiter) = passes.pop() else {
        unreachable!()
    };
    let Some(mut other) = passes.pop() else {
        unreachable!()
    };
    let guest = Guest {
        rt,
        alloc,
        hall: &hall,
    };
    Ok(woken_between(&guest, &mut waiter, &mut other, hindrance))
}

#[test]
fn who_waits_for_a_line_learns_why_it_does_not_come(rt: HostRuntime) -> Result<(), Fail> {
    let alloc = rt.alloc();
    // Eleven calls open the disk, and each append makes four: the slip of the first piece is kept, that of the second
    // is not.
    let rows = [
        (Cause::Loss, 0, (End::Lost, End::Noted(true))),
        (Cause::Stop, 0, (End::Stopped, End::Ended)),
        (Cause::Disk, 16, (End::Failed, End::Worked(true))),
    ];
    for (cause, fail_at, wanted) in rows {
        for pause in [0, 1, 5, 20] {
            let hindrance = Hindrance {
                cause,
                pause,
                shelf: Brittle { fail_at },
            };
            let (made, kept) = (Blank::new(2), Blank::new(1));
            let ends = woken_in::<Brand, Brand, _>(&rt, alloc, hindrance, made, kept)?;
            assert!(rt; ends == Some(wanted), "{fail_at} {pause}");
        }
    }
    Ok(())
}
