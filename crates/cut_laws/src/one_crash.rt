//! One process crashes, and nothing else fails.

ghost use Rattle.cut_laws.specs.OneCrash.{
  OneCrashIsFound,
  OneCrashIsFoundInSums,
  OneCrashIsFoundByH,
  OneCrashIsSettledByH,
  OneCrashIsSettledByHInSums,
};

use crate::ends::{only_who_ends_stable_is_proposed, settled_ends_leave_none_silent};

/// One crash is found by every receiver, whatever K, H and L are: no process observes itself, so all K observers of
/// the crashed process report it, and nobody reports any other.
pub fn one_crash_is_found()
    ensures trials { OneCrashIsFound }
    ensures sums { OneCrashIsFoundInSums }
{
    cut_plan::laws::cells_are_the_combinations();
    cut_outcome::laws::decided_by_votes();
    only_who_ends_stable_is_proposed();
    cut_detector::laws::proposes_at_least_place();
    cut_outcome::laws::receivers_are_the_rest();
    cut_outcome::laws::right_is_decided();
    settled_ends_leave_none_silent();
    cut_detector::laws::targets_alone();
}

/// Each receiver waits for H of the K alerts about the one that has crashed: if each comes once it proposes after
/// exactly H deliveries, and where more copies come after H at least, and at most one more than all copies of H - 1
/// alerts. So each unit of H costs one more alert.
pub fn one_crash_is_found_by_h()
    ensures { OneCrashIsFoundByH }
{
    cut_plan::laws::cells_are_the_combinations();
    cut_outcome::laws::decided_by_votes();
    cut_draws::laws::deliveries_are_copies_of_edges();
    cut_draws::laws::distinct_edges_have_an_order();
    cut_rings::laws::edge_numbers_name_edges();
    cut_draws::laws::edges_come_at_their_first_time();
    only_who_ends_stable_is_proposed();
    cut_detector::laws::proposes_at_least_place();
    cut_outcome::laws::receivers_are_the_rest();
    cut_outcome::laws::right_is_decided();
    settled_ends_leave_none_silent();
    cut_detector::laws::targets_alone();
    cut_detector::laws::unstable_are_reported_and_not_stable();
}

/// So in a plan of version 2 `settled` is H for each receiver if each alert comes once, and within these bounds where
/// more copies come.
pub fn one_crash_is_settled_by_h()
    ensures trials { OneCrashIsSettledByH }
    ensures sums { OneCrashIsSettledByHInSums }
{
    one_crash_is_found();
    one_crash_is_found_by_h();
    cut_outcome::laws::receivers_are_the_rest();
}
