ghost use Rattle.std.specs.Prelude.{◌≡◌, ◌+◌, ◌^◌, ◌<◌, ◌≤◌, ◌++◌, ◌∷◌, [], ℕ, true, List, Option, Some, None, IfSome};
ghost use Rattle.std.specs.Prelude.{IfNone, false, length, map, count_by, slice_index, IfOk, OnOk, All};
ghost use Rattle.std.specs.Prelude.{Contains};
ghost use Rattle.cut_plan.specs.Cells.{IsCellOf};
ghost use Rattle.cut_draws.specs.Source.{source_of};
ghost use Rattle.cut_alerts.specs.Assignment.{is_target};
ghost use Rattle.cut_detector.specs.declared.proposal.Proposal as proposals;
ghost use Rattle.cut_arrivals.specs.proposals.Reception.{Reception, proposal_at};
ghost use Rattle.cut_fields.specs.declared.version.Version.TheVariants.{One, Two};
ghost use Rattle.cut_plan.specs.Failing.{version_of};
ghost use Rattle.std.proofs.Props.{props};
ghost use Rattle.cut_plan.specs.declared.limits.TheConstants.{MOST_NODES};
ghost use Rattle.cut_arrivals.specs.candidates.KeyPlaces.{AreKeyPlaces};
ghost use Rattle.cut_arrivals.specs.candidates.Candidates.{subjects_of};
ghost use Rattle.cut_arrivals.specs.receivers.Received.{reception_of, HasReceived};
ghost use Rattle.cut_arrivals.specs.receivers.LaneVerdicts.{lane_verdict_in, flagged, has_bit, is_proposal};
ghost use Rattle.cut_outcome.specs.Verdicts.{targets_of};
ghost use Rattle.cut_trial.specs.inside.Counted.{HasJudged, IsJudging};
ghost use Rattle.cut_trial.specs.inside.Judging.{AreFor, AreReady, IsNext, IsPlacedVerdictIn, proposed_by};
ghost use Rattle.cut_trial.specs.inside.Judging.{proposals_to};

use crate::alerts::Alerts;
use crate::input::{TrialInput, rings_are_a_layout};
use crate::replays::Replay;
use crate::setup::TrialSetup;
use crate::verdict_counts::VerdictCounts;
use cut_alerts::Roles;
use cut_arrivals::blocks::Blocks;
use cut_arrivals::candidates::{Candidates, KeyPlaces};
use cut_arrivals::proposals::laws;
use cut_arrivals::receivers::{LaneVerdict, LaneVerdicts, Places, Receivers, Trial};
use cut_draws::Draws;
use cut_plan::{Cell, Version};
use std::alloc::{AllocError, Global};

/// Judges the receivers of a cell's trials, in memory that all trials share.
#[derive(Drop)]
pub(crate) struct ReceiverJudge<'a> {
    replays: Replay<'a>,
    pub outcome: VerdictCounts,
    times: Receivers,
    members: Vec<u16>,
}

/// What all receivers of a trial have in common: the roles, the alerts, and which candidates are targets.
#[derive(Clone, Copy)]
struct TrialContext<'a> {
    setup: TrialSetup<'a>,
    trial: Trial<'a>,
    wanted: &'a [bool],
    /// Whether each target is a candidate.
    is_complete: bool,
    /// The key places of all alerts, if the plan's version asks for the places of proposals.
    key_places: Option<&'a KeyPlaces>,
    ghost some: { 0 < length trial.candidates.now.candidates.items },
    ghost wanted_are: { wanted.now ≡ map (λ s. is_target setup.roles.now s)
        (subjects_of trial.candidates.now.candidates.items) },
    ghost complete: { is_complete ≡ true →
        flagged (subjects_of trial.candidates.now.candidates.items) wanted.now ≡ targets_of setup.roles.now },
    ghost heard: { (j : ℕ) → proposal_at (reception_of trial j) ≡ proposed_by setup.alerts.now trial.blocks.now j },
    ghost nodes: { trial.rings.now.nodes ≡ length setup.roles.now.roles },
    ghost key_places_are: { IfSome key_places
        (λ s. AreKeyPlaces trial.rule.k s.now.blocks.items trial.edges.now s.now.key_places.items) } by { Prim.hlevel props },
    ghost few: { length trial.edges.now ≤ 2 ^ 16 },
    ghost unasked: { key_places ≡ None → version_of setup.alerts.now.study.plan.now.failing ≡ One },
}

/// What is found of a receiver: what it proposes, and at which place, if that is known. It is 0 where the plan's
/// version doesn't ask for it.
#[derive(Clone, Copy)]
struct PlacedVerdict {
    lane_verdict: LaneVerdict,
    place: Option<u64>,
}

impl<'a> ReceiverJudge<'a> {
    /// What judges the receivers of this cell's trials.
    pub fn new(
        alloc: Global,
        study: TrialInput<'a>,
        cell: Cell,
    ) -> Result<ReceiverJudge<'a>, AllocError>
        requires { IsCellOf study.plan.now cell }
        ensures { IfOk result (λ j. AreFor study.entry cell j) }
    {
        Ok(ReceiverJudge {
            outcome: VerdictCounts::new(alloc, study.plan.version()),
            replays: Replay::new(alloc, study, cell)?,
            times: Receivers::new(alloc),
            members: Vec::new(alloc),
        })
    }

    /// Judges all receivers of a trial.
    pub fn judge(
        &mut self,
        alloc: Global,
        draws: &mut Draws,
        trial: u32,
        setup: TrialSetup<'_>,
    ) -> Result<(), AllocError>
        requires fit { AreFor setup.alerts.now.study setup.alerts.now.cell self.old }
        requires draws { draws.old ≡ source_of setup.alerts.now.study.plan.now.seed trial }
        ensures judged { OnOk result (HasJudged setup.entry.roles.now self.new.outcome
            (map (λ j. proposed_by setup.entry.alerts.now draws.old j) setup.entry.receivers.now)) }
        ensures fit { AreFor setup.entry.alerts.now.study setup.entry.alerts.now.cell self.new }
    {
        self.outcome.clear();
        self.judge_receivers(alloc, draws, trial, setup)?;
        self.outcome.close(setup.targets)?;
        Ok(())
    }

    /// Judges all receivers, none of which has been judged yet.
    fn judge_receivers(
        &mut self,
        alloc: Global,
        draws: &mut Draws,
        trial: u32,
        setup: TrialSetup<'_>,
    ) -> Result<(), AllocError>
        requires fit { AreFor setup.alerts.now.study setup.alerts.now.cell self.old }
        requires draws { draws.old ≡ source_of setup.alerts.now.study.plan.now.seed trial }
        requires none { IsJudging setup.roles.now self.old.outcome [] }
        ensures judged { OnOk result (IsJudging setup.entry.roles.now self.new.outcome
            (proposals_to setup.entry.alerts.now draws.old setup.entry.receivers.now
            (length setup.entry.receivers.now))) }
        ensures fit { AreFor setup.entry.alerts.now.study setup.entry.alerts.now.cell self.new }
    {
        let alerts = setup.alerts;
        let TrialInput { plan, rings } = alerts.study;
        let rule = alerts.rule();
        let edges = alerts.edges.as_slice();
        let candidates = Candidates::of(alloc, rings, rule, edges)?;
        rings_are_a_layout(rings);
        if !candidates.ends_stable {
            laws::none_proposes_where_none_ends_stable();
            return self.judge_silent(draws, setup);
        }
        let blocks = Blocks::new(plan.seed(), trial);
        let trial = Trial {
            rings,
            rule,
            edges,
            copies: plan.copies(),
            blocks: &blocks,
            candidates: &candidates,
        };
        let wanted = wanted_candidates(alloc, &candidates, setup.roles)?;
        let wanted = wanted.as_slice();
        let key_places = all_key_places(alloc, alerts, &candidates)?;
        let context = TrialContext {
            setup,
            trial,
            wanted,
            is_complete: count_set(wanted) == setup.targets.len(),
            key_places: key_places.as_ref(),
        };
        self.judge_all(draws, context)
    }

    /// Judges receivers none of which proposes, as no process is stable by all alerts.
    fn judge_silent(&mut self, draws: &Draws, setup: TrialSetup<'_>) -> Result<(), AllocError>
        requires fit { AreFor setup.alerts.now.study setup.alerts.now.cell self.old }
        requires none { IsJudging setup.roles.now self.old.outcome [] }
        requires silent { (j : ℕ) → proposed_by setup.alerts.now draws.now j ≡ None }
        ensures judged { OnOk result (IsJudging setup.entry.roles.now self.new.outcome
            (proposals_to setup.entry.alerts.now draws.now setup.entry.receivers.now
            (length setup.entry.receivers.now))) }
        ensures fit { AreFor setup.entry.alerts.now.study setup.entry.alerts.now.cell self.new }
    {
        for _ in setup.receivers {
            self.outcome.add(None, 0, setup.roles, setup.targets)?;
        }
        Ok(())
    }

    /// Judges all receivers, four at a time.
    fn judge_all(&mut self, draws: &mut Draws, context: TrialContext<'_>) -> Result<(), AllocError>
        requires ready { AreReady context.setup.alerts.now context.trial.blocks.now self.old draws.old }
        requires none { IsJudging context.setup.roles.now self.old.outcome [] }
        ensures judged { OnOk result (IsJudging context.entry.setup.roles.now self.new.outcome
            (proposals_to context.entry.setup.alerts.now draws.old context.entry.setup.receivers.now
            (length context.entry.setup.receivers.now))) }
        ensures fit { AreFor context.entry.setup.alerts.now.study context.entry.setup.alerts.now.cell self.new }
    {
        for four in 0..context.setup.receivers.len().div_ceil(4) {
            self.judge_four(draws, context, 4 * four)?;
        }
        Ok(())
    }

    /// Judges up to four receivers, beginning at a place.
    fn judge_four(
        &mut self,
        draws: &mut Draws,
        context: TrialContext<'_>,
        first: usize,
    ) -> Result<(), AllocError>
        requires ready { AreReady context.setup.alerts.now context.trial.blocks.now self.old draws.old }
        requires next { IsNext context.setup.alerts.now context.setup.roles.now draws.old context.setup.receivers.now
            first
            self.old }
        ensures judged { OnOk result (IsJudging context.entry.setup.roles.now self.new.outcome
            (proposals_to context.entry.setup.alerts.now draws.old context.entry.setup.receivers.now (first + 4))) }
        ensures fit { AreFor context.entry.setup.alerts.now.study context.entry.setup.alerts.now.cell self.new }
        ensures draws { draws.new ≡ draws.old }
    {
        let receivers = context.setup.receivers;
        let four = four_from(receivers, first);
        receive(&mut self.times, context, four)?;
        let lane_verdicts = self.times.judge(context.wanted);
        let places = self.places(context, four, lane_verdicts)?;
        for lane in 0..4.min(receivers.len() - first) {
            let placed_verdict = PlacedVerdict {
                lane_verdict: lane_verdicts.at(lane),
                place: place_in(places, lane),
            };
            self.judge_one(draws, context, first + lane, lane, placed_verdict)?;
        }
        Ok(())
    }

    /// The places at which four receivers propose whose deliveries were received, if the plan's version asks for them
    /// and one of them proposes.
    fn places(
        &mut self,
        context: TrialContext<'_>,
        receivers: [u16; 4],
        lane_verdicts: LaneVerdicts,
    ) -> Result<Option<Places>, AllocError>
        requires receivers { All (λ j. j < MOST_NODES) receivers }
        ensures places { IfOk result (λ found. IfSome found (λ p. (i : ℕ) (subjects : List ℕ) → i < 4
            → HasReceived (reception_of context.entry.trial (slice_index receivers i)) subjects i self.old.times
            → has_bit self.old.times.proposal_time.doubt i ≡ false → has_bit p.doubt i ≡ false
            → IfSome (proposal_at (reception_of context.entry.trial (slice_index receivers i)))
            (λ q. q.at ≡ slice_index p.until i))) }
        ensures unasked { IfOk result (λ found. IfNone found
            (version_of context.entry.setup.alerts.now.study.plan.now.failing ≡ Two → (i : ℕ) → i < 4
            → is_proposal (lane_verdict_in lane_verdicts i) ≡ false)) }
        ensures same { (x : Reception) (subjects : List ℕ) (i : ℕ) → HasReceived x subjects i self.old.times
            → HasReceived x subjects i self.new.times }
        ensures doubt { self.new.times.proposal_time.doubt ≡ self.old.times.proposal_time.doubt }
        ensures replays { self.new.replays ≡ self.old.replays }
        ensures outcome { self.new.outcome ≡ self.old.outcome }
    {
        match context.key_places {
            Some(key_places) if lane_verdicts.has_proposals() => {
                Ok(Some(self.times.places(context.trial, receivers, key_places)?))
            }
            _ => Ok(None),
        }
    }

    /// Judges the receiver at an index by what was found in its lane.
    fn judge_one(
        &mut self,
        draws: &mut Draws,
        context: TrialContext<'_>,
        index: usize,
        lane: usize,
        placed_verdict: PlacedVerdict,
    ) -> Result<(), AllocError>
        requires ready { AreReady context.setup.alerts.now context.trial.blocks.now self.old draws.old }
        requires next { IsNext context.setup.alerts.now context.setup.roles.now draws.old context.setup.receivers.now
            index
            self.old }
        requires placed_verdict { IsPlacedVerdictIn (reception_of context.trial
            (slice_index context.setup.receivers.now index))
            (version_of context.setup.alerts.now.study.plan.now.failing)
            (subjects_of context.trial.candidates.now.candidates.items) context.wanted.now self.old.times lane
            placed_verdict }
        ensures judged { OnOk result (IsJudging context.entry.setup.roles.now self.new.outcome
            (proposals_to context.entry.setup.alerts.now draws.old context.entry.setup.receivers.now (index + 1))) }
        ensures fit { AreFor context.entry.setup.alerts.now.study context.entry.setup.alerts.now.cell self.new }
        ensures times { self.new.times ≡ self.old.times }
        ensures draws { draws.new ≡ draws.old }
    {
        let setup = context.setup;
        match (placed_verdict.lane_verdict, placed_verdict.place) {
            (LaneVerdict::Silent, _) => self.outcome.add(None, 0, setup.roles, setup.targets),
            (LaneVerdict::Wanted, Some(place)) if context.is_complete => {
                self.outcome.add_exact(place);
                Ok(())
            }
            (LaneVerdict::Other, Some(place)) => {
                let candidates = context.trial.candidates;
                self.times.members(candidates, lane, &mut self.members)?;
                let members = Some(self.members.as_slice());
                self.outcome.add(members, place, setup.roles, setup.targets)
            }
            _ => self.replay(draws, setup, setup.receivers[index]),
        }
    }

    /// Judges a receiver by its deliveries in their order.
    fn replay(
        &mut self,
        draws: &mut Draws,
        setup: TrialSetup<'_>,
        receiver: u16,
    ) -> Result<(), AllocError>
        requires fit { AreFor setup.alerts.now.study setup.alerts.now.cell self.old }
        requires receiver { receiver < length setup.roles.now.roles }
        ensures judged { OnOk result ((before : List (Option proposals.Proposal)) → length before < 2 ^ 32 →
            IsJudging setup.entry.roles.now self.old.outcome before →
            IsJudging setup.entry.roles.now self.new.outcome (before
            ++ proposed_by setup.entry.alerts.now draws.old receiver ∷ [])) }
        ensures fit { AreFor setup.entry.alerts.now.study setup.entry.alerts.now.cell self.new }
        ensures times { self.new.times ≡ self.old.times }
        ensures draws { draws.new ≡ draws.old }
    {
        self.replays.receive(draws, setup.alerts, receiver)?;
        let detector = &self.replays.detector;
        self.outcome.add(
            detector.members(),
            detector.deliveries(),
            setup.roles,
            setup.targets,
        )
    }
}

/// Which candidates are targets.
fn wanted_candidates(
    alloc: Global,
    candidates: &Candidates,
    roles: &Roles,
) -> Result<Vec<bool>, AllocError>
    requires { All (λ s. s < length roles.now.roles) (subjects_of candidates.now.candidates.items) }
    ensures { IfOk result (λ wanted. wanted.items ≡ map
        (λ s. is_target roles.now s) (subjects_of candidates.now.candidates.items)) }
{
    let mut wanted = Vec::with_capacity(alloc, candidates.candidates.len())?;
    for candidate in &candidates.candidates {
        wanted.push(roles.is_target(candidate.subject))?;
    }
    Ok(wanted)
}

/// How many flags are set.
fn count_set(flags: &[bool]) -> usize
    ensures { result ≡ count_by (λ flag. flag) flags.now }
{
    flags.iter().filter(|flag| **flag).count()
}

/// Four receivers, beginning at a place. The last receiver stands in for those that are missing.
fn four_from(receivers: &[u16], first: usize) -> [u16; 4]
    requires some { first < length receivers.now }
    ensures each { (i : ℕ) → first + i < length receivers.now → i < 4
        → slice_index result i ≡ slice_index receivers.now (first + i) }
    ensures all { All (λ j. Contains receivers.now j) result }
{
    [
        receiver_at(receivers, first),
        receiver_at(receivers, first + 1),
        receiver_at(receivers, first + 2),
        receiver_at(receivers, first + 3),
    ]
}

/// The receiver at a place, or the last one.
fn receiver_at(receivers: &[u16], place: usize) -> u16
    requires { 0 < length receivers.now }
    ensures each { place < length receivers.now → result ≡ slice_index receivers.now place }
    ensures all { Contains receivers.now result }
{
    receivers[place.min(receivers.len() - 1)]
}

/// Computes the times of four receivers. If places are asked for, the images of their keys are kept for them.
fn receive(
    times: &mut Receivers,
    context: TrialContext<'_>,
    receivers: [u16; 4],
) -> Result<(), AllocError>
    requires { All (λ j. j < MOST_NODES) receivers }
    ensures { OnOk result ((i : ℕ) → i < 4
        → HasReceived (reception_of context.entry.trial (slice_index receivers i))
        (subjects_of context.entry.trial.candidates.now.candidates.items) i times.new) }
{
    match context.key_places {
        Some(_) => times.receive_copies(context.trial, receivers),
        None => times.receive(context.trial, receivers),
    }
}

/// The key places of all alerts of a trial with these candidates, if its plan's version asks for the places of
/// proposals. Their blocks begin with those of the candidates.
fn all_key_places(
    alloc: Global,
    alerts: &Alerts<'_>,
    candidates: &Candidates,
) -> Result<Option<KeyPlaces>, AllocError>
    requires { All (λ block. block < 2 ^ 13) candidates.now.blocks.items }
    ensures key_places { IfOk result (λ found. IfSome found
        (λ s. AreKeyPlaces alerts.now.cell.k s.blocks.items alerts.now.edges.items s.key_places.items)) }
    ensures unasked { IfOk result (λ found. found ≡ None → version_of alerts.now.study.plan.now.failing ≡ One) }
{
    match alerts.study.plan.version() {
        Version::One => Ok(None),
        Version::Two => {
            let first = candidates.blocks.as_slice();
            let edges = alerts.edges.as_slice();
            Ok(Some(KeyPlaces::after(alloc, first, alerts.cell.k, edges)?))
        }
    }
}

/// The place of the receiver in a lane: 0 where places are not asked for, and none if its place is in doubt.
fn place_in(places: Option<Places>, lane: usize) -> Option<u64>
    requires { lane < 4 }
    ensures unasked { IfNone places (result ≡ Some 0) }
    ensures place { IfSome places (λ p. IfSome result
        (λ n. (has_bit p.doubt lane ≡ false) × (n ≡ slice_index p.until lane))) }
    ensures few { IfSome result (λ n. n < 2 ^ 32) }
{
    let Some(places) = places else {
        return Some(0);
    };
    if places.is_doubtful(lane) {
        return None;
    }
    Some(u64::from(places.at(lane)))
}
