//! Cells in which L and H are equal.

ghost use Rattle.cut_laws.specs.EqualWatermarks.{
  ProposesOneProcess,
  AllAreSilentOrNone,
  TwoTargetsMakeAllConflicts,
  TwoTargetsMakeSumsAllConflicts,
  ImplicitAlertsChangeNoTrial,
  ImplicitAlertsChangeNoSums,
};

use crate::ends::{only_who_ends_stable_is_proposed, settled_ends_leave_none_silent};

/// With L = H nothing holds a receiver back: it proposes at the first delivery after which some process is stable,
/// and a delivery makes one process stable at most. So every proposal has exactly one member.
pub fn one_process_is_proposed()
    ensures { ProposesOneProcess }
{
    cut_rings::laws::edge_numbers_name_edges();
    cut_draws::laws::edges_come_at_their_first_time();
    cut_detector::laws::equal_watermarks();
    cut_detector::laws::none_is_marked_unheard();
    cut_detector::laws::proposes_at_least_place();
}

/// With L = H either all receivers are silent or none is, by whether some process is stable once all alerts have
/// come; and where two processes fail or more, every receiver that proposes is a conflict, so that no trial is right.
pub fn equal_watermarks_split_failures()
    ensures silent { AllAreSilentOrNone }
    ensures trials { TwoTargetsMakeAllConflicts }
    ensures sums { TwoTargetsMakeSumsAllConflicts }
{
    cut_plan::laws::cells_are_the_combinations();
    cut_detector::laws::equal_watermarks();
    one_process_is_proposed();
    only_who_ends_stable_is_proposed();
    cut_outcome::laws::receivers_are_the_rest();
    settled_ends_leave_none_silent();
}

/// With L = H implicit alerts change nothing: two plans that differ in them alone have the same outcome at each
/// trial.
pub fn implicit_alerts_change_nothing()
    ensures trials { ImplicitAlertsChangeNoTrial }
    ensures sums { ImplicitAlertsChangeNoSums }
{
    cut_detector::laws::equal_watermarks();
}
