//! What all alerts of a trial together say of its receivers, in whatever orders they hear them.

ghost use Rattle.cut_laws.specs.Ends.{
  OnlyWhoEndsStableIsProposed,
  AMissedTargetMakesAllConflicts,
  StableTargetsAloneLeaveNoExtra,
  NoneStableLeavesAllSilent,
  SettledEndsLeaveNoneSilent,
};

/// Alerts only add to what is stable. So no receiver proposes a process that isn't stable once all alerts have come,
/// and if a target isn't, as one whose observers have mostly crashed and are silent, every receiver that proposes is a
/// conflict.
pub fn only_who_ends_stable_is_proposed()
    ensures members { OnlyWhoEndsStableIsProposed }
    ensures missed { AMissedTargetMakesAllConflicts }
    ensures others { StableTargetsAloneLeaveNoExtra }
    ensures none { NoneStableLeavesAllSilent }
{
    cut_draws::laws::deliveries_are_copies_of_edges();
    cut_detector::laws::more_edges_only_add();
    cut_detector::laws::proposes_at_least_place();
    cut_outcome::laws::receivers_are_the_rest();
}

/// If some process is stable once all alerts have come and none is unstable then, every receiver proposes: at the last
/// delivery if not before.
pub fn settled_ends_leave_none_silent()
    ensures { SettledEndsLeaveNoneSilent }
{
    cut_plan::laws::cells_are_the_combinations();
    cut_draws::laws::deliveries_are_copies_of_edges();
    cut_draws::laws::edges_come_at_their_first_time();
    cut_detector::laws::none_is_marked_unheard();
    cut_detector::laws::proposes_at_least_place();
    cut_outcome::laws::receivers_are_the_rest();
}
