ghost use Rattle.std.specs.Prelude.{◌≡◌, ◌^◌, ◌<◌, [], ◌∷◌, ◌++◌, List, Option, Some, length, OnOk, option_map};
ghost use Rattle.std.specs.Prelude.{IfSome};
ghost use Rattle.cut_plan.specs.Cells.{IsCellOf};
ghost use Rattle.cut_plan.specs.Failing.{version_of};
ghost use Rattle.cut_detector.specs.declared.proposal.Proposal as proposals;
ghost use Rattle.cut_alerts.specs.Assignment.{Assignment};
ghost use Rattle.cut_outcome.specs.Verdicts.{targets_of, judged, AreAscending};
ghost use Rattle.cut_outcome.specs.Outcome.{place_for};

use crate::Ballot;
use crate::verdicts::{EXACT, SILENT, verdict_on_ascending};
use cut_alerts::Roles;
use cut_outcome::{Totals, Verdict, quorum};
use cut_plan::{Cell, Plan, Version};
use std::alloc::{AllocError, Global};

/// The verdicts on a trial's receivers so far. Proposals of exactly the targets are counted beside the ballot, so that
/// no list is made for them.
#[derive(Debug, Drop)]
pub(crate) struct VerdictCounts {
    pub version: Version,
    conflicts: u64,
    silent: u64,
    extra: u64,
    settled: u64,
    exact: u64,
    ballot: Ballot,
}

impl VerdictCounts {
    ghost use Rattle.cut_outcome.specs.Outcome.{IsPlaced, totals_of};
    ghost use Rattle.cut_trial.specs.inside.Counted.{HasVerdicts, HasJudged, IsJudging};

    /// No receiver of a plan of this version has been judged.
    pub(crate) fn new(alloc: Global, version: Version) -> VerdictCounts
        ensures { result.version ≡ version }
    {
        VerdictCounts {
            version,
            conflicts: 0,
            silent: 0,
            extra: 0,
            settled: 0,
            exact: 0,
            ballot: Ballot::new(alloc),
        }
    }

    /// Begins again, for another trial.
    pub(crate) fn clear(&mut self)
        ensures none { (a : Assignment) → IsJudging a self.new [] }
        ensures version { self.new.version ≡ self.old.version }
    {
        self.conflicts = 0;
        self.silent = 0;
        self.extra = 0;
        self.settled = 0;
        self.exact = 0;
        self.ballot.clear();
    }

    /// Judges one more receiver, by the members that it proposed and after how many deliveries, if these are the
    /// targets. A plan of version 1 doesn't ask for that place.
    pub(crate) fn add(
        &mut self,
        members: Option<&[u16]>,
        place: u64,
        roles: &Roles,
        targets: &[u16],
    ) -> Result<(), AllocError>
        requires ascending { IfSome members (λ m. AreAscending roles.now m.now) }
        requires targets { targets.now ≡ targets_of roles.now }
        requires place { place < 2 ^ 32 }
        ensures judging { OnOk result ((p : Option proposals.Proposal) → (before : List (Option proposals.Proposal)) →
            option_map (λ m. m.now) members.entry ≡ option_map (λ x. x.members) p →
            IfSome p (λ x. IsPlaced self.old.version place (Some x)) → length before < 2 ^ 32 →
            IsJudging roles.now self.old before → IsJudging roles.now self.new (before ++ p ∷ [])) }
        ensures version { self.new.version ≡ self.old.version }
    {
        let Some(members) = members else {
            self.count(SILENT, 0);
            return Ok(());
        };
        self.ballot.add_members(members)?;
        self.count(verdict_on_ascending(members, roles, targets.len()), place);
        Ok(())
    }

    /// Judges one more receiver, which proposed exactly the targets after this many deliveries.
    pub(crate) fn add_exact(&mut self, place: u64)
        requires place { place < 2 ^ 32 }
        ensures judging { (a : Assignment) → (p : proposals.Proposal) → (before : List (Option proposals.Proposal)) →
            p.members ≡ targets_of a → IsPlaced self.old.version place (Some p) → length before < 2 ^ 32 →
            IsJudging a self.old before → IsJudging a self.new (before ++ Some p ∷ []) }
        ensures version { self.new.version ≡ self.old.version }
    {
        self.exact = self.exact.saturating_add(1);
        self.count(EXACT, place);
    }

    /// Counts one more verdict, and adds the place of the proposal where the plan's version reports it.
    fn count(&mut self, verdict: Verdict, place: u64)
        requires { place < 2 ^ 32 }
        ensures verdicts { (a : Assignment) → (p : Option proposals.Proposal)
            → (before : List (Option proposals.Proposal)) →
            verdict ≡ judged a p → IsPlaced self.old.version place p → length before < 2 ^ 32 →
            HasVerdicts a self.old before → HasVerdicts a self.new (before ++ p ∷ []) }
        ensures ballot { self.new.ballot ≡ self.old.ballot }
        ensures exact { self.new.exact ≡ self.old.exact }
        ensures version { self.new.version ≡ self.old.version }
    {
        self.conflicts = self.conflicts.saturating_add(u64::from(verdict.conflict));
        self.silent = self.silent.saturating_add(u64::from(verdict.silent));
        self.extra = self.extra.saturating_add(u64::from(verdict.extra));
        self.settled = self.settled.saturating_add(place_for(self.version, place));
    }

    /// Adds the votes for exactly the targets to the others, once all receivers have been judged.
    pub(crate) fn close(&mut self, targets: &[u16]) -> Result<(), AllocError>
        ensures judged { OnOk result ((a : Assignment) → (all : List (Option proposals.Proposal)) →
            targets.now ≡ targets_of a → length all < 2 ^ 32 →
            IsJudging a self.old all → HasJudged a self.new all) }
        ensures version { self.new.version ≡ self.old.version }
    {
        self.ballot.add_votes(targets, self.exact)?;
        Ok(())
    }

    /// The eight numbers of a trial whose receivers have all been judged.
    pub(crate) fn totals(&self, plan: &Plan, cell: Cell, targets: &[u16]) -> Totals
        requires cell { IsCellOf plan.now cell }
        requires version { self.now.version ≡ version_of plan.now.failing }
        ensures { (a : Assignment) → (all : List (Option proposals.Proposal)) →
            HasJudged a self.now all → targets.now ≡ targets_of a →
            result ≡ totals_of plan.now cell a all }
    {
        let nodes = plan.nodes();
        let quorum = u64::from(quorum(nodes));
        let votes = self.ballot.largest();
        let right = self.ballot.votes_for(targets);
        Totals {
            receivers: u64::from(nodes - cell.f),
            conflicts: self.conflicts,
            silent: self.silent,
            extra: self.extra,
            votes,
            decided: u64::from(quorum <= votes),
            right: u64::from(quorum <= right),
            settled: self.settled,
        }
    }
}

/// A place, as a plan of this version asks for it.
fn place_for(version: Version, place: u64) -> u64
    ensures { result ≡ place_for version place }
{
    match version {
        Version::One => 0,
        Version::Two => place,
    }
}
