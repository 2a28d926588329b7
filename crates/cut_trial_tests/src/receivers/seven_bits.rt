//! Images of seven bits, so that many are equal: if a lane is not in doubt, what has ended by its proposal time is what
//! the detector proposes when the same alerts come in the order of their whole keys.
ghost use Rattle.std.specs.Prelude.{ℕ, ◌<◌, ◌≤◌, slice_index, All, IfOk};
ghost use Rattle.cut_arrivals.specs.blocks.Images.{never};
ghost use Rattle.cut_arrivals.specs.lanes.Lanes.{lane};

use crate::receivers::drawn::drawn_rings;
use crate::receivers::edges::all_within;
use cut_arrivals::blocks::NEVER;
use cut_arrivals::lanes::{ProposalTime, compute_proposal_time, select};
use cut_detector::{Proposal, Rule, replay};
use cut_rings::{Edge, Rings};
use rand_chacha::ChaCha8Rng;
use rand_core::SeedableRng;
use rand_core::utils::NextWord;
use std::alloc::{AllocError, Global};
use std::process::Abort;
use std::simd::u32x4;
use std::test::Fail;

const PROCESSES: u16 = 6;

/// An alerted edge, and its whole key at each of four receivers.
#[derive(Clone, Copy)]
struct Alert {
    edge: Edge,
    keys: [u32; 4],
}

/// How many lanes were in doubt, silent, and proposed.
#[derive(Clone, Copy, Default)]
struct Counts {
    doubts: u32,
    silent: u32,
    proposals: u32,
}

/// Draws the keys of an edge.
fn drawn_alert(words: &mut ChaCha8Rng, edge: Edge) -> Alert {
    let keys = [
        words.next_word(),
        words.next_word(),
        words.next_word(),
        words.next_word(),
    ];
    Alert { edge, keys }
}

/// Draws two of three edges, each with its keys.
fn drawn_alerts(alloc: Global, words: &mut ChaCha8Rng, k: u8) -> Result<Vec<Alert>, AllocError> {
    let mut alerts = Vec::new(alloc);
    for subject in 0..PROCESSES {
        for ring in 0..k {
            let edge = Edge { ring, subject };
            let alert = drawn_alert(words, edge);
            if words.next_word() % 3 > 0 {
                alerts.push(alert)?;
            }
        }
    }
    Ok(alerts)
}

/// A time that is at most `NEVER`.
fn time_of(time: u32) -> u32
    ensures { result ≤ never }
{
    time.min(NEVER)
}

/// Times that are at most `NEVER`.
fn times_of(times: [u32; 4]) -> u32x4
    ensures { (i : ℕ) → i < 4 → slice_index result i ≤ never }
{
    let [first, second, third, fourth] = times;
    u32x4::from_array([
        time_of(first),
        time_of(second),
        time_of(third),
        time_of(fourth),
    ])
}

/// The first seven bits of each key.
fn image_of(keys: [u32; 4]) -> u32x4
    ensures { (i : ℕ) → i < 4 → slice_index result i ≤ never }
{
    times_of(keys.map(|key| key >> 25))
}

/// The images of the alerts of a subject.
fn images_of(alloc: Global, alerts: &[Alert], subject: u16) -> Result<Vec<u32x4>, AllocError>
    ensures { IfOk result (λ v. (i : ℕ) → i < 4 → All (λ x. x ≤ never) (lane i v.items)) }
{
    let mut images = Vec::new(alloc);
    for alert in alerts {
        if alert.edge.subject == subject {
            images.push(image_of(alert.keys))?;
        }
    }
    Ok(images)
}

/// From when on each subject is reported and stable, and when that closes.
fn proposal_time_of(
    rt: &impl Abort,
    alloc: Global,
    alerts: &[Alert],
    rule: Rule,
) -> Result<(Vec<u32x4>, ProposalTime), Fail> {
    let (low, high) = (u32::from(rule.l), u32::from(rule.h));
    let mut reported_at: Vec<u32x4> = Vec::new(alloc);
    let mut stable_at = Vec::new(alloc);
    for subject in 0..PROCESSES {
        let images = images_of(alloc, alerts, subject)?;
        assert!(rt; images.len() <= 64 && 1 <= low && low <= high);
        let (least, most) = select(&images, low, high);
        reported_at.push(times_of(least.to_array()))?;
        stable_at.push(most)?;
    }
    assert!(rt; reported_at.len() == stable_at.len() && !reported_at.is_empty());
    let proposal_time = compute_proposal_time(&reported_at, &stable_at);
    Ok((stable_at, proposal_time))
}

/// The alerted edges in the order in which a receiver hears of them, by whole keys.
fn heard(alloc: Global, alerts: &[Alert], lane: usize) -> Result<Vec<Edge>, AllocError> {
    let mut keyed = Vec::new(alloc);
    for alert in alerts {
        keyed.push((alert.keys[lane % 4], alert.edge.ring, alert.edge.subject))?;
    }
    keyed.sort()?;
    keyed
        .iter()
        .map(|&(_, ring, subject)| Edge { ring, subject })
        .collect(alloc)
}

/// What the detector proposes of these alerts at a receiver.
fn replayed(
    rt: &impl Abort,
    alloc: Global,
    rings: &Rings,
    rule: Rule,
    edges: &[Edge],
) -> Result<Option<Proposal>, Fail> {
    let Rule { k, h, l, implicit } = rule;
    assert!(rt; 1 <= l && l <= h && h <= k && k <= rings.len());
    assert!(rt; all_within(k, rings.nodes(), edges));
    Ok(replay(alloc, rings, k, h, l, implicit, edges)?)
}

/// The subjects that have ended in a lane by its proposal time, if that comes.
fn ended(
    alloc: Global,
    stable_at: &[u32x4],
    proposal_time: &ProposalTime,
    lane: usize,
) -> Result<Option<Vec<u16>>, AllocError> {
    let time = proposal_time.time.to_array()[lane % 4];
    if time >= NEVER {
        return Ok(None);
    }
    let mut subjects = Vec::new(alloc);
    for (subject, high) in (0..PROCESSES).zip(stable_at) {
        if high.to_array()[lane % 4] <= time {
            subjects.push(subject)?;
        }
    }
    Ok(Some(subjects))
}

/// Whether members are those of a proposal, or there is neither.
fn is_same(members: &Option<Vec<u16>>, proposal: &Option<Proposal>) -> bool {
    match (members, proposal) {
        (None, None) => true,
        (Some(members), Some(proposal)) => members.as_slice() == proposal.members.as_slice(),
        _ => false,
    }
}

/// Drawn rings, and their drawn alerts at four receivers.
#[derive(Drop)]
struct Drawn {
    rule: Rule,
    rings: Rings,
    alerts: Vec<Alert>,
    stable_at: Vec<u32x4>,
    proposal_time: ProposalTime,
}

/// Draws rings and alerts.
fn drawn_lanes(
    rt: &impl Abort,
    alloc: Global,
    words: &mut ChaCha8Rng,
    rule: Rule,
) -> Result<Drawn, Fail> {
    let rings = drawn_rings(alloc, words, PROCESSES, rule.k)?;
    let alerts = drawn_alerts(alloc, words, rule.k)?;
    let (stable_at, proposal_time) = proposal_time_of(rt, alloc, &alerts, rule)?;
    Ok(Drawn {
        rule,
        rings,
        alerts,
        stable_at,
        proposal_time,
    })
}

/// Whether a lane proposes, if it does what is replayed.
fn proposes(rt: &impl Abort, alloc: Global, drawn: &Drawn, lane: usize) -> Result<bool, Fail> {
    let edges = heard(alloc, &drawn.alerts, lane)?;
    let proposal = replayed(rt, alloc, &drawn.rings, drawn.rule, &edges)?;
    let members = ended(alloc, &drawn.stable_at, &drawn.proposal_time, lane)?;
    assert!(rt; is_same(&members, &proposal));
    Ok(members.is_some())
}

/// Four receivers of drawn alerts on drawn rings: each lane that is not in doubt proposes what is replayed.
fn check_alerts(
    rt: &impl Abort,
    alloc: Global,
    drawn: &Drawn,
    tally: &mut Counts,
) -> Result<(), Fail> {
    for lane in 0..4 {
        if drawn.proposal_time.doubt >> lane & 1 == 1 {
            tally.doubts = tally.doubts.saturating_add(1);
        } else if proposes(rt, alloc, drawn, lane)? {
            tally.proposals = tally.proposals.saturating_add(1);
        } else {
            tally.silent = tally.silent.saturating_add(1);
        }
    }
    Ok(())
}

#[test]
fn lanes_of_seven_bits_propose_what_whole_keys_do(rt: HostRuntime) -> Result<(), Fail> {
    let mut words = ChaCha8Rng::from_seed([3; 32]);
    let mut tally = Counts::default();
    for (k, h, l) in [(4, 3, 2), (6, 6, 1), (10, 7, 4), (8, 5, 5)] {
        let rule = Rule {
            k,
            h,
            l,
            implicit: false,
        };
        for _ in 0..50 {
            let drawn = drawn_lanes(&rt, rt.alloc(), &mut words, rule)?;
            check_alerts(&rt, rt.alloc(), &drawn, &mut tally)?;
        }
    }
    assert!(rt; tally.doubts > 80 && tally.silent > 80 && tally.proposals > 80);
    Ok(())
}
