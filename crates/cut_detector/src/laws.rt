//! Laws of cut detection. Each function does nothing, and its contract is the law.

ghost use Rattle.cut_detector.specs.Laws.{
  ProposesAtLeastPlace,
  RepeatsChangeNoMembers,
  RepeatsDelayByOne,
  StableByReportsAlone,
  NoneIsUnstable,
  ImplicitAlertsChangeNothing,
  ProposesAtFirstStable,
  StableAreTargets,
  TargetsAloneLeaveNoneUnstable,
  AWiderGapProposesLater,
  AGapWiderAtBothEndsProposesLater,
  FirstEdgesGrow,
  ImplicitAlertsKeepStable,
  ImplicitAlertsKeepMarked,
  MoreEdgesKeepReported,
  MoreEdgesKeepStable,
  UnstableAreReportedAndNotStable,
  NoneIsReportedUnheard,
  NoneIsStableUnheard,
};

/// A process proposes all stable processes at the first delivery after which there is one and none is unstable.
#[tactic(auto, using(crate::proofs::Places::proposes))]
pub fn proposes_at_least_place()
    ensures { ProposesAtLeastPlace }
{}

/// An alert that is delivered again changes no members of the proposal: tallies count distinct rings. The place is the
/// same if the proposal comes before the repeat, and else the next one.
#[tactic(auto, using(crate::proofs::Places::repeats))]
pub fn repeats_change_no_members()
    ensures members { RepeatsChangeNoMembers }
    ensures place { RepeatsDelayByOne }
{}

/// Where L and H are equal, a process is stable exactly where H distinct rings report it, none is
/// unstable, implicit alerts change nothing, and the proposal is made at the first delivery after
/// which some process is stable.
#[tactic(auto, using(crate::proofs::Gaps::equal_watermarks))]
pub fn equal_watermarks()
    ensures stable { StableByReportsAlone }
    ensures unstable { NoneIsUnstable }
    ensures implicit { ImplicitAlertsChangeNothing }
    ensures first { ProposesAtFirstStable }
{}

/// If all alerts are about some targets, and at least H rings report each of them, exactly the targets are stable and
/// no process is unstable, with implicit alerts and without.
#[tactic(auto, using(crate::proofs::Modes::targets))]
pub fn targets_alone()
    ensures stable { StableAreTargets }
    ensures unstable { TargetsAloneLeaveNoneUnstable }
{}

/// A receiver that proposes with a higher H also proposes with a lower one, at the same place or earlier, and only
/// members of the later proposal. Without implicit alerts the same holds for a lower L instead of a higher H, and for
/// both. So a wider gap between the watermarks waits longer, and for more. This is for sets of edges that only grow, as
/// the first entries of a list do.
#[tactic(auto, using(crate::proofs::Gaps::wider_gap))]
pub fn a_wider_gap_proposes_later()
    ensures high { AWiderGapProposesLater }
    ensures both { AGapWiderAtBothEndsProposesLater }
    ensures lists { FirstEdgesGrow }
{}

/// Implicit alerts only add: what is stable, and what is stable or unstable, contains what it is
/// without them.
#[tactic(auto, using(crate::proofs::Gaps::stable_on, crate::proofs::Gaps::marked_on))]
pub fn implicit_alerts_only_add()
    ensures stable { ImplicitAlertsKeepStable }
    ensures marked { ImplicitAlertsKeepMarked }
{}

/// More edges only add: a process that is reported on at least L rings stays so, and a stable process stays stable.
#[tactic(auto, using(crate::proofs::Growing::more_edges))]
pub fn more_edges_only_add()
    ensures reported { MoreEdgesKeepReported }
    ensures stable { MoreEdgesKeepStable }
{}

/// A process is unstable exactly if it is reported on at least L rings and isn't stable: what it gains from implicit
/// alerts it gains only then.
#[tactic(auto, using(crate::proofs::Growing::unstable_by_reported))]
pub fn unstable_are_reported_and_not_stable()
    ensures { UnstableAreReportedAndNotStable }
{}

/// A process that no delivered edge is about is neither reported nor stable.
#[tactic(auto, using(crate::proofs::Growing::unheard))]
pub fn none_is_marked_unheard()
    ensures reported { NoneIsReportedUnheard }
    ensures stable { NoneIsStableUnheard }
{}
