//! What a receiver proposes, by times. Each function does nothing that is seen, and its contract is the law.
ghost use Rattle.cut_arrivals.specs.proposals.Laws.{
  IsReportedFromLow,
  CountsFromFullTime,
  IsStableFromHigh,
  IsUnstableBetween,
  ProposesByTimes,
  RanksRise,
  LowsRise,
  HighsRise,
  ClosesAsSettled,
  ClosesAsProposed,
  ClosesAtPlace,
  EndsReportedAlike,
  EndsStableAlike,
  SilentWhereNoneEndsStable,
  ImagesAreLeast,
  OthersNeverCome,
  UngainedCountByImage,
  GainedCountByLows,
  LowIsRankOfPresent,
  HighIsRankOfFullTimes,
  ReportedAreCandidates,
  CandidatesShowLacking,
  CandidatesShowOther,
  MembersAreTargets,
};

/// A process is reported from its low time on, and stable from its high time on. Between them it is unstable.
pub fn modes_follow_from_times()
    ensures reported { IsReportedFromLow }
    ensures counting { CountsFromFullTime }
    ensures stable { IsStableFromHigh }
    ensures unstable { IsUnstableBetween }
{}

/// The proposal is made at the first time that is settled, by low and high times alone.
pub fn proposals_follow_from_times()
    ensures { ProposesByTimes }
{}

/// Where times are changed weakly rising, as from places among the deliveries to images of keys, the ranks, lows and
/// highs of the changed times are the changed ranks, lows and highs.
pub fn ranks_keep_rising_changes()
    ensures ranks { RanksRise }
    ensures reported_at { LowsRise }
    ensures stable_at { HighsRise }
{}

/// If there is no doubt, the time by which all that began before it has ended gives the members of the first settled
/// time, even if times are tied.
pub fn closing_gives_the_members()
    ensures { ClosesAsSettled }
{}

/// If there is no doubt, a receiver proposes exactly the members that the images of its deliveries give by their
/// closing time. The deliveries need not be sorted, and tied images do no harm.
pub fn images_give_the_members()
    ensures { ClosesAsProposed }
{
    crate::blocks::laws::images_are_below_never();
}

/// Where at most one delivery has the image of the closing time, the whole proposal is known: its place is how many
/// deliveries have images up to that time.
pub fn images_give_the_place()
    ensures { ClosesAtPlace }
{
    crate::blocks::laws::images_are_below_never();
}

/// Who is reported in the end, and who is stable, is the same at each receiver: the edges decide it, and not the keys.
pub fn receivers_end_alike()
    ensures reported { EndsReportedAlike }
    ensures stable { EndsStableAlike }
{
    crate::blocks::laws::images_are_below_never();
}

/// If no process is stable in the end, no receiver proposes.
pub fn none_proposes_where_none_ends_stable()
    ensures { SilentWhereNoneEndsStable }
{}

/// The image of an alerted edge is the least over its copies, which stand in the blocks of the receiver's row.
pub fn images_stand_in_blocks()
    ensures { ImagesAreLeast }
{
    crate::blocks::laws::deliveries_stand_in_blocks();
}

/// Lows and highs are ranks of few values: the images of alerted edges, and with implicit alerts the lows of both
/// processes if a ring is gained.
pub fn few_values_give_lows_and_highs()
    ensures others { OthersNeverCome }
    ensures ungained { UngainedCountByImage }
    ensures gained { GainedCountByLows }
    ensures low { LowIsRankOfPresent }
    ensures high { HighIsRankOfFullTimes }
    ensures candidates { ReportedAreCandidates }
{
    crate::blocks::laws::images_are_below_never();
}

/// Whether the members lack a target or have another process follows from the processes that are reported in the end.
/// If neither holds, the members are the targets.
pub fn candidates_show_the_verdict()
    ensures lacking { CandidatesShowLacking }
    ensures other { CandidatesShowOther }
    ensures exact { MembersAreTargets }
{
    crate::blocks::laws::images_are_below_never();
}
