//! Receivers of drawn trials, four at once, beside the detector to which the deliveries of each are replayed.
ghost use Rattle.std.specs.Prelude.{◌<◌, length, All};

use crate::receivers::replays::replayed;
use crate::receivers::setting::{SEED, Scene, Setting};
use cut_arrivals::blocks::Blocks;
use cut_arrivals::receivers::{LaneVerdict, LaneVerdicts, Places, Receivers};
use cut_detector::{Proposal, Rule};
use cut_draws::Draws;
use std::alloc::{AllocError, Global};
use std::process::Abort;
use std::test::Fail;

/// Rings, high and low watermark: few and many rings, equal watermarks, and watermarks at either end.
const RULES: [(u8, u8, u8); 9] = [
    (1, 1, 1),
    (4, 3, 2),
    (10, 9, 4),
    (10, 10, 1),
    (16, 8, 8),
    (17, 9, 1),
    (17, 17, 17),
    (32, 12, 6),
    (32, 32, 1),
];

/// Lists of receivers, which are heard four at a time. The last one stands for those that a list lacks.
const LISTS: [&[u16]; 4] = [&[5], &[2047, 0, 1], &[700, 3, 3, 12], &[8, 9, 10, 11, 1024]];

/// How many receivers were found to propose nothing, what was wanted, and others.
#[derive(Clone, Copy, Default)]
struct Counts {
    silent: u32,
    wanted: u32,
    others: u32,
}

impl Counts {
    /// The tally with one more lane verdict.
    fn with(self, lane_verdict: LaneVerdict) -> Counts {
        let mut tally = self;
        match lane_verdict {
            LaneVerdict::Doubtful => {}
            LaneVerdict::Silent => tally.silent = tally.silent.saturating_add(1),
            LaneVerdict::Wanted => tally.wanted = tally.wanted.saturating_add(1),
            LaneVerdict::Other => tally.others = tally.others.saturating_add(1),
        }
        tally
    }

    /// Both tallies together.
    fn plus(self, other: Counts) -> Counts {
        Counts {
            silent: self.silent.saturating_add(other.silent),
            wanted: self.wanted.saturating_add(other.wanted),
            others: self.others.saturating_add(other.others),
        }
    }
}

/// The expected members, and for each candidate whether it is one.
#[derive(Drop)]
pub(crate) struct Wanted {
    members: Vec<u16>,
    flags: Vec<bool>,
}

impl Wanted {
    /// The members that receiver 0 proposes, or all candidates where it proposes none.
    pub fn new(alloc: Global, scene: Scene<'_>) -> Result<Wanted, AllocError> {
        let candidates = &scene.trial.candidates.candidates;
        let mut draws = Draws::new(SEED, scene.number);
        let members = match replayed(alloc, scene, &mut draws, 0)? {
            Some(proposal) => proposal.members.into_vec(),
            None => candidates
                .iter()
                .map(|candidate| candidate.subject)
                .collect(alloc)?,
        };
        let flags = candidates
            .iter()
            .map(|candidate| members.contains(&candidate.subject))
            .collect(alloc)?;
        Ok(Wanted { members, flags })
    }
}

/// What is said of a receiver in a lane.
#[derive(Clone, Copy)]
struct Said {
    lane: usize,
    receiver: u16,
    lane_verdict: LaneVerdict,
    place: Option<u32>,
}

impl Said {
    /// Whether that is what was replayed, with these members.
    fn is_replayed(self, members: &[u16], proposal: &Option<Proposal>, wanted: &[u16]) -> bool {
        match (self.lane_verdict, proposal) {
            (LaneVerdict::Doubtful, _) | (LaneVerdict::Silent, None) => true,
            (LaneVerdict::Wanted | LaneVerdict::Other, Some(proposal)) => {
                let is_wanted = members == wanted;
                members == proposal.members.as_slice()
                    && is_wanted == (self.lane_verdict == LaneVerdict::Wanted)
                    && self
                        .place
                        .is_none_or(|place| u64::from(place) == proposal.at)
            }
            _ => false,
        }
    }
}

/// The place in a lane, where no equal images leave it open.
fn place_in(places: &Places, lane: usize) -> Option<u32>
    requires { lane < 4 }
{
    if places.is_doubtful(lane) {
        None
    } else {
        Some(places.at(lane))
    }
}

/// Hears four receivers, and returns the places at which they propose.
pub(crate) fn places_of(
    heard: &mut Receivers,
    scene: Scene<'_>,
    receivers: [u16; 4],
) -> Result<Places, AllocError>
    requires receivers { All (λ j. j < 2048) receivers }
    requires some { 0 < length scene.trial.candidates.now.candidates.items }
{
    heard.receive(scene.trial, receivers)?;
    heard.places(scene.trial, receivers, scene.key_places)
}

/// Whether what is said of a lane is what is replayed to its receiver.
fn is_right(
    alloc: Global,
    heard: &Receivers,
    scene: Scene<'_>,
    said: Said,
    wanted: &Wanted,
) -> Result<bool, AllocError>
    requires { said.receiver < 2048 }
{
    let candidates = scene.trial.candidates;
    if said.lane >= 4 || candidates.candidates.len() != heard.stable_at.len() {
        return Ok(false);
    }
    let mut draws = Draws::new(SEED, scene.number);
    let mut members = Vec::new(alloc);
    heard.members(candidates, said.lane, &mut members)?;
    let proposal = replayed(alloc, scene, &mut draws, said.receiver)?;
    Ok(said.is_replayed(&members, &proposal, &wanted.members))
}

/// What is found of four receivers, if each lane says what was replayed.
pub(crate) fn found_as_replayed(
    alloc: Global,
    heard: &mut Receivers,
    scene: Scene<'_>,
    receivers: [u16; 4],
    wanted: &Wanted,
) -> Result<Option<LaneVerdicts>, AllocError>
    requires { All (λ j. j < 2048) receivers }
{
    if scene.trial.candidates.candidates.is_empty() {
        return Ok(None);
    }
    let places = places_of(heard, scene, receivers)?;
    if heard.stable_at.len() != wanted.flags.len() {
        return Ok(None);
    }
    let lane_verdicts = heard.judge(&wanted.flags);
    for lane in 0..4 {
        let said = Said {
            lane,
            receiver: receivers[lane],
            lane_verdict: lane_verdicts.at(lane),
            place: place_in(&places, lane),
        };
        if !is_right(alloc, heard, scene, said, wanted)? {
            return Ok(None);
        }
    }
    Ok(Some(lane_verdicts))
}

/// Four receivers from a place in their list on.
fn four_from(receivers: &[u16], first: usize) -> [u16; 4]
    ensures { All (λ j. j < 2048) result }
{
    [
        receiver_at(receivers, first),
        receiver_at(receivers, first.saturating_add(1)),
        receiver_at(receivers, first.saturating_add(2)),
        receiver_at(receivers, first.saturating_add(3)),
    ]
}

/// The receiver at a place in a list, or the last one.
fn receiver_at(receivers: &[u16], place: usize) -> u16
    ensures { result < 2048 }
{
    let last = receivers.last().copied().unwrap_or(0);
    receivers.get(place).copied().unwrap_or(last) % 2048
}

/// What is found of a list of receivers, each of which proposes what is replayed.
fn check_list(
    alloc: Global,
    heard: &mut Receivers,
    scene: Scene<'_>,
    wanted: &Wanted,
    receivers: &[u16],
) -> Result<Counts, Fail> {
    let mut tally = Counts::default();
    for four in 0..receivers.len().div_ceil(4) {
        let receivers = four_from(receivers, four.saturating_mul(4));
        let found = found_as_replayed(alloc, heard, scene, receivers, wanted)?;
        let lane_verdicts = found.ok_or("a lane differs from its replay")?;
        let more = tally_of(lane_verdicts);
        if lane_verdicts.has_proposals() != (more.wanted > 0 || more.others > 0) {
            return Err("proposals that no lane has".into());
        }
        tally = tally.plus(more);
    }
    Ok(tally)
}

/// What is found of the receivers in four lanes.
fn tally_of(lane_verdicts: LaneVerdicts) -> Counts {
    let mut tally = Counts::default();
    for lane in 0..4 {
        tally = tally.with(lane_verdicts.at(lane));
    }
    tally
}

/// All lists of receivers of a drawn trial are heard.
fn check_trial(
    rt: &impl Abort,
    alloc: Global,
    heard: &mut Receivers,
    rule: Rule,
    number: u32,
) -> Result<Counts, Fail> {
    let setting = Setting::drawn(rt, alloc, rule, number)?;
    let blocks = Blocks::new(SEED, number);
    let scene = setting.scene(&blocks, number, 1 + (number % 3) as u8);
    let mut tally = Counts::default();
    if scene.trial.candidates.candidates.is_empty() {
        return Ok(tally);
    }
    let wanted = Wanted::new(alloc, scene)?;
    for receivers in LISTS {
        tally = tally.plus(check_list(alloc, heard, scene, &wanted, receivers)?);
    }
    Ok(tally)
}

/// Drawn trials by a rule, without implicit alerts and with them in turn.
fn check_rule(
    rt: &impl Abort,
    alloc: Global,
    heard: &mut Receivers,
    (k, h, l): (u8, u8, u8),
    first: u32,
) -> Result<Counts, Fail> {
    let mut tally = Counts::default();
    for trial in 0..12u32 {
        let implicit = trial % 2 == 1;
        assert!(rt; 1 <= l && l <= h && h <= k && k <= 32);
        let rule = Rule { k, h, l, implicit };
        let number = first.saturating_add(trial);
        tally = tally.plus(check_trial(rt, alloc, heard, rule, number)?);
    }
    Ok(tally)
}

#[test]
fn lanes_propose_what_the_detector_does(rt: HostRuntime) -> Result<(), Fail> {
    let mut heard = Receivers::new(rt.alloc());
    let mut tally = Counts::default();
    let mut first = 0u32;
    for rule in RULES {
        tally = tally.plus(check_rule(&rt, rt.alloc(), &mut heard, rule, first)?);
        first = first.saturating_add(12);
    }
    assert!(rt; tally.silent > 0 && tally.wanted > 0 && tally.others > 0);
    Ok(())
}
