//! What the numbers of a line of the table say of each other, in one trial and in sums over trials. That votes and
//! silent receivers are at most the receivers, and a quorum for each decided trial at most the votes, stands among
//! the laws of `cut_outcome`.

ghost use Rattle.cut_laws.specs.Columns.{
  TooFewVotersDecideNothing,
  TooManyFailedLeaveNoneDecided,
  TrialsAreRightByVerdicts,
  RightWithoutExtra,
  TrialsAreWrongByVerdicts,
  SumsAreWrongByVerdicts,
  TrialsHaveVotesOfTheRight,
  SumsHaveVotesOfTheRight,
  SumsAreRightUnlessLost,
  NoTargetsLeaveNoConflicts,
  NoTargetsLeaveNoConflictsInSums,
};

/// A quorum is all N processes, failed ones included, less a quarter of N - 1, rounded down. So if more than that
/// quarter fail or are silent, no trial is decided, whatever K, H and L are.
pub fn too_few_voters_decide_nothing()
    ensures trials { TooFewVotersDecideNothing }
    ensures sums { TooManyFailedLeaveNoneDecided }
{
    cut_outcome::laws::decided_by_votes();
    cut_outcome::laws::right_is_decided();
}

/// A trial is right where enough receivers are neither silent nor a conflict and propose no other process. Where none
/// proposes another process, as with crashes alone, it is right exactly if a quorum is neither silent nor a conflict.
pub fn right_by_verdicts()
    ensures verdicts { TrialsAreRightByVerdicts }
    ensures without_extra { RightWithoutExtra }
{
    cut_outcome::laws::receivers_are_the_rest();
}

/// The processes can decide on a wrong set only if a quorum proposes it, and each of these receivers is a conflict or
/// proposes another process. So there is a quorum of such receivers for each trial that is decided and not right.
pub fn wrong_decisions_need_a_wrong_quorum()
    ensures trials { TrialsAreWrongByVerdicts }
    ensures sums { SumsAreWrongByVerdicts }
{
    cut_outcome::laws::receivers_are_the_rest();
}

/// Receivers that are neither silent nor a conflict, and propose no other process, propose the same: the votes are at
/// least as many. So a trial that isn't right has lost more receivers than it had to spare beyond a quorum, and the
/// sums over trials say how many are right at least.
pub fn the_others_are_right()
    ensures trials { TrialsHaveVotesOfTheRight }
    ensures sums { SumsHaveVotesOfTheRight }
    ensures right { SumsAreRightUnlessLost }
{
    cut_outcome::laws::receivers_are_the_rest();
    cut_outcome::laws::right_is_decided();
}

/// If no process fails, no receiver is a conflict, and each that proposes names a healthy process.
pub fn no_targets_leave_no_conflicts()
    ensures trials { NoTargetsLeaveNoConflicts }
    ensures sums { NoTargetsLeaveNoConflictsInSums }
{
    cut_detector::laws::proposes_at_least_place();
    cut_outcome::laws::receivers_are_the_rest();
}
