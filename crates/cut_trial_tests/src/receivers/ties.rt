//! Receivers whose images tie where it matters. They were found by a search through the key stream that was written
//! apart from this project, with the alerts that the roles below give.
ghost use Rattle.std.specs.Prelude.{◌<◌};

use crate::receivers::lanes::places_of;
use crate::receivers::replays::replayed;
use crate::receivers::setting::{SEED, Scene, Setting};
use cut_alerts::Roles;
use cut_arrivals::blocks::Blocks;
use cut_arrivals::receivers::{LaneVerdict, Receivers};
use cut_detector::Rule;
use cut_draws::Draws;
use cut_plan::Dead;
use cut_rings::Rings;
use std::alloc::{AllocError, Global};
use std::process::Abort;
use std::test::Fail;

const RULE: Rule = Rule {
    k: 4,
    h: 3,
    l: 2,
    implicit: false,
};

const COPIES: u8 = 3;

/// Six processes in their order on each ring.
const ORDERS: [[u16; 6]; 4] = [
    [0, 1, 2, 3, 4, 5],
    [3, 0, 5, 1, 4, 2],
    [2, 4, 0, 1, 5, 3],
    [5, 3, 1, 4, 2, 0],
];

/// What is found of a receiver, and the place at which the detector proposes.
#[derive(Clone, Copy, PartialEq, Eq)]
struct Found {
    lane_verdict: LaneVerdict,
    place: u32,
    is_doubtful: bool,
    settled: Option<u64>,
}

/// The lists of the orders.
fn orders(alloc: Global) -> Result<Vec<Vec<u16>>, AllocError> {
    let mut lists: Vec<Vec<u16>> = Vec::new(alloc);
    for order in ORDERS {
        lists.push(Vec::from_array(alloc, order)?)?;
    }
    Ok(lists)
}

/// Process 0 has crashed, and process 5 lies: all four rings report 0, two report 3, and one 1.
fn setting(rt: &impl Abort, alloc: Global) -> Result<Setting, Fail> {
    let lists = orders(alloc)?;
    assert!(rt; lists.len() <= 32);
    let rings = Rings::from_lists(alloc, 6, &lists)?;
    let roles = Roles::given_mixed(alloc, 6, &[0], &[], &[5], &[], Dead::Silent)?;
    Setting::new(rt, alloc, RULE, rings, &roles)
}

/// What is found of a receiver in the second lane, where process 0 alone is expected.
fn found_of_receiver(
    alloc: Global,
    scene: Scene<'_>,
    receiver: u16,
) -> Result<Option<Found>, AllocError>
    requires { receiver < 2048 }
{
    if scene.trial.candidates.candidates.len() != 2 {
        return Ok(None);
    }
    let mut heard = Receivers::new(alloc);
    let places = places_of(&mut heard, scene, [0, receiver, 1, 2])?;
    if heard.stable_at.len() != 2 {
        return Ok(None);
    }
    let lane_verdicts = heard.judge(&[true, false]);
    let mut draws = Draws::new(SEED, scene.number);
    let proposal = replayed(alloc, scene, &mut draws, receiver)?;
    Ok(Some(Found {
        lane_verdict: lane_verdicts.at(1),
        place: places.at(1),
        is_doubtful: places.is_doubtful(1),
        settled: proposal.map(|proposal| proposal.at),
    }))
}

/// Trials and receivers, what is found of each, the place that its lane says, and that at which the detector proposes.
const TIES: [(u32, u16, LaneVerdict, u32, Option<u64>); 3] = [
    (46_712, 1304, LaneVerdict::Wanted, 8, Some(7)),
    (20_030, 1307, LaneVerdict::Wanted, 6, Some(6)),
    (133_101, 1699, LaneVerdict::Doubtful, 21, None),
];

#[test]
fn equal_images_are_in_doubt(rt: HostRuntime) -> Result<(), Fail> {
    let setting = setting(&rt, rt.alloc())?;
    for (number, receiver, lane_verdict, place, settled) in TIES {
        let blocks = Blocks::new(SEED, number);
        let scene = setting.scene(&blocks, number, COPIES);
        let found = found_of_receiver(rt.alloc(), scene, receiver % 2048)?;
        let wanted = Found {
            lane_verdict,
            place,
            is_doubtful: true,
            settled,
        };
        assert!(rt; found == Some(wanted));
    }
    Ok(())
}
