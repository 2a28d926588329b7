//! Laws of trials: of the fast round, of sums over trials, and of receivers. Each function does nothing
//! but call the laws of other crates that it follows from, and its contract is the law.

ghost use Rattle.cut_outcome.specs.Laws.{
  QuorumsAgree,
  MostVotesAreMost,
  RightIsDecided,
  DecidedOnce,
  TrialsAreByVotes,
  SumsAreByVotes,
  SumsAddUp,
  PiecesJoin,
  PartsAddUp,
  ReceiversAreTheRest,
  SilentWhereNothingFails,
  NoneProposesOthers,
  NoneIsSilentWhereObserversSpeak,
  HigherHIsMoreCautious,
  HigherHHasFewerConflicts,
  AWiderGapIsMoreCautious,
  AWiderGapHasFewerConflicts,
  TrialsHavePossibleTotals,
  PiecesHavePossibleTotals,
  UpgradesKeepOutcomes,
  UpgradesKeepSums,
  SettledLiesWithin,
  SettledReachesHigh,
  SettledReachesLow,
};

/// The fast round agrees: with at most one proposal per process, two quorums have a proposal in common, so no two
/// different proposals are both decided.
pub fn quorums_agree()
    ensures { QuorumsAgree }
{}

/// No proposal has more votes than the largest number of equal proposals, so a trial in which a quorum
/// proposes exactly the failed processes is decided; and a trial counts as decided once at most.
pub fn right_is_decided()
    ensures most { MostVotesAreMost }
    ensures right { RightIsDecided }
    ensures once { DecidedOnce }
{}

/// Only receivers that announce something have votes, so the votes and the silent receivers together are at most all
/// receivers. A trial is decided only by a quorum, so there is at least a quorum of votes for each decided trial. This
/// holds of each trial, and of the sums over any trials.
pub fn decided_by_votes()
    ensures trials { TrialsAreByVotes }
    ensures sums { SumsAreByVotes }
{}

/// A study may be divided in any way: the sums over a piece are those over its parts, added up.
pub fn sums_add_up()
    ensures lists { SumsAddUp }
    ensures trials { PiecesJoin }
    ensures pieces { PartsAddUp }
{}

/// The processes that a trial draws to fail are exactly as many as its cell says, so the receivers, which
/// are the others, are all processes less these.
pub fn receivers_are_the_rest()
    ensures { ReceiversAreTheRest }
{}

/// If no process fails, none lies and no link is cut, nothing is alerted, so no receiver announces anything.
pub fn silent_where_nothing_fails()
    ensures { SilentWhereNothingFails }
{}

/// Where processes fail by crashes alone, no receiver proposes one that has not crashed, whatever the
/// orders in which alerts come. Where crashed observers raise alerts too, and some process has crashed,
/// every receiver proposes: at the end it has heard of each crashed process on all rings, and of no other.
pub fn only_crashes()
    ensures others { NoneProposesOthers }
    ensures silent { NoneIsSilentWhereObserversSpeak }
{
    cut_plan::laws::cells_are_the_combinations();
    cut_detector::laws::targets_alone();
    cut_detector::laws::proposes_at_least_place();
}

/// With a higher H, by the same draws, no receiver that was silent proposes and none becomes a conflict;
/// one that names a process that has not failed still does so, or is silent. So conflicts can only fall as
/// H rises, and silences only grow. (The Rapid paper's section on the sensitivity to K, H and L measures
/// this.)
pub fn higher_h()
    ensures verdicts { HigherHIsMoreCautious }
    ensures totals { HigherHHasFewerConflicts }
{
    cut_detector::laws::a_wider_gap_proposes_later();
}

/// If no implicit alerts are added, a lower L does the same as a higher H, and so do both together: a wider gap.
pub fn wider_gap()
    ensures verdicts { AWiderGapIsMoreCautious }
    ensures totals { AWiderGapHasFewerConflicts }
{
    cut_detector::laws::a_wider_gap_proposes_later();
}

/// The sums over trials of one cell, as those of a piece are, are possible ones: the receivers are all
/// processes less the cell's failed ones, once for each trial; no receiver is silent and a conflict, or
/// silent and names another process; the votes are at most the receivers; no more trials are right
/// than decided, nor decided than there are; and `settled` lies between the receivers that propose and
/// that number times all copies of all edges (0 for a plan of version 1).
pub fn pieces_have_possible_totals()
    ensures trials { TrialsHavePossibleTotals }
    ensures pieces { PiecesHavePossibleTotals }
{}

/// In a trial of a plan of version 2, `settled` is at least the number of receivers that propose, and at
/// most that number times the deliveries that each hears of.
pub fn settled_lies_within()
    ensures { SettledLiesWithin }
{}

/// A process is stable only once H rings report it, or L where implicit alerts are added, and each comes by
/// a delivery. So in a trial of a plan of version 2, `settled` is at least H for each receiver that
/// proposes, or L.
pub fn settled_reaches_watermarks()
    ensures high { SettledReachesHigh }
    ensures low { SettledReachesLow }
{
    cut_detector::laws::proposes_at_least_place();
}

/// A plan and its upgrade to the second version have the same outcome at every trial but for `settled`, and
/// so the same sums over every piece: as many targets of each cell are deaf, so every trial draws the same
/// roles.
pub fn upgrades_keep_outcomes()
    ensures trials { UpgradesKeepOutcomes }
    ensures sums { UpgradesKeepSums }
{
    cut_plan::laws::cells_are_the_combinations();
    cut_plan::laws::upgrades_fail_alike();
    cut_alerts::laws::as_many_deaf_draw_alike();
}
