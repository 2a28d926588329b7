//! Receivers for whose times an allocation may be refused. If none is, each of them is found as replayed; the test also
//! holds where any one allocation of its calls is refused, and is meant to be run so by hand.

use crate::receivers::lanes::{Wanted, found_as_replayed};
use crate::receivers::setting::{SEED, Setting};
use cut_arrivals::blocks::Blocks;
use cut_arrivals::receivers::Receivers;
use cut_detector::Rule;
use std::alloc::Global;
use std::process::Abort;
use std::test::Fail;

const RULE: Rule = Rule {
    k: 4,
    h: 3,
    l: 2,
    implicit: true,
};

/// Four receivers are heard three times, in the same memory. At most one of these times may be refused.
fn check_thrice(rt: &impl Abort, alloc: Global, setting: &Setting) -> Result<(), Fail> {
    let blocks = Blocks::new(SEED, 1);
    let scene = setting.scene(&blocks, 1, 2);
    let wanted = Wanted::new(alloc, scene)?;
    let mut heard = Receivers::new(alloc);
    let mut refused = 0u32;
    for _ in 0..3 {
        match found_as_replayed(alloc, &mut heard, scene, [0, 7, 1, 2047], &wanted) {
            Ok(found) => assert!(rt; found.is_some()),
            Err(_) => refused = refused.saturating_add(1),
        }
    }
    assert!(rt; refused <= 1);
    Ok(())
}

#[test]
fn a_refused_time_is_heard_again(rt: HostRuntime) -> Result<(), Fail> {
    let setting = Setting::drawn(&rt, rt.alloc(), RULE, 1)?;
    check_thrice(&rt, rt.alloc(), &setting)
}
