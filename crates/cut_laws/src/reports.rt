//! How many reports of a process lead to its proposal, and how few are overlooked.

ghost use Rattle.cut_laws.specs.Reports.{
  ProposesByReports,
  TooFewAlertsMakeAllConflicts,
  TooFewFalseAlertsLeaveNoExtra,
};

use crate::ends::only_who_ends_stable_is_proposed;
use cut_detector::laws;

/// Where a receiver proposes, each member is reported on at least H rings, or L with implicit alerts, and each
/// process that it leaves out on fewer than L: that is how many reports are taken for noise. So a target is left out
/// only where fewer than L of its alerts have come.
pub fn proposes_by_reports()
    ensures { ProposesByReports }
{
    laws::proposes_at_least_place();
    laws::unstable_are_reported_and_not_stable();
}

/// A process about which fewer than H observers raise alerts, or L with implicit alerts, is proposed by nobody: a
/// target with fewer makes every receiver that proposes a conflict, and where liars and cut links raise fewer about
/// each process that has not failed, none of these is proposed.
pub fn too_few_alerts_are_overlooked()
    ensures targets { TooFewAlertsMakeAllConflicts }
    ensures others { TooFewFalseAlertsLeaveNoExtra }
{
    only_who_ends_stable_is_proposed();
}
