//! A hall of three passes, of which one is kept back at first.
ghost use Rattle.std.specs.Prelude.{◌≡◌, All, None};

use crate::hall::deeds::{Stormy, close_hall};
use cut_hall::{Blanks, CallLedger, Hall, NotClosed, Pass, Report};
use std::alloc::Global;
use std::marker::Brand;
use std::sync::ledger::Blank;
use std::test::Fail;

/// The accepted trials and the calls of the only slot, and whether its study is complete.
fn only_slot(report: &Report) -> Option<(u64, u64, bool)> {
    let slot = report.as_slice().first()?;
    Some((slot.accepted(), slot.calls(), slot.complete()))
}

/// Closes a hall without one of its passes, and then with all: what is reported of its only slot. `None` if it is not
/// given back at first.
fn close_twice<M: CallLedger, K: CallLedger>(
    alloc: Global,
    hall: Stormy<M, K>,
    passes: Vec<Pass<M>>,
    last: Pass<M>,
) -> Result<Option<(u64, u64, bool)>, Fail>
    requires ledgers { (M.all ≡ M.parts) × (K.all ≡ K.parts) }
    requires own { All (λ p. p.hall ≡ hall.id) passes.items }
    requires last { last.hall ≡ hall.id }
{
    match hall.close(alloc, passes) {
        Err(NotClosed::SeatMissing((hall, mut passes))) => {
            passes.push(last)?;
            Ok(only_slot(&close_hall(alloc, hall, passes)?))
        }
        _ => Ok(None),
    }
}

/// Closes a new hall of one slot and three passes so.
fn close_new<M: CallLedger, K: CallLedger>(
    alloc: Global,
    made: Blank,
    kept: Blank,
) -> Result<Option<(u64, u64, bool)>, Fail>
    requires made { (made.name ≡ M.name) × (made.parts ≡ M.parts) × (M.all ≡ M.parts) × (M.all ≡ 3) }
    requires kept { (kept.name ≡ K.name) × (kept.parts ≡ K.parts) × (K.all ≡ K.parts) × (K.all ≡ 1)
        × (K.opening ≡ None) }
{
    let started = Hall::start(alloc, 1, 3, 1, Blanks { made, kept });
    let (hall, mut passes): (Stormy<M, K>, Vec<Pass<M>>) = started?;
    let Some(last) = passes.pop() else {
        unreachable!()
    };
    close_twice(alloc, hall, passes, last)
}

#[test]
fn a_hall_is_closed_with_all_its_passes(rt: HostRuntime) -> Result<(), Fail> {
    let report = close_new::<Brand, Brand>(rt.alloc(), Blank::new(3), Blank::new(1))?;
    assert!(rt; report == Some((0, 0, false)));
    Ok(())
}
