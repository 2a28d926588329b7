//! Processes crash, and nothing else fails.

ghost use Rattle.cut_laws.specs.Crashes.{
  CrashedObserversRaiseNone,
  SpeakingObserversRaiseAll,
  NoneAreRaisedAboutOthers,
  EnoughAlertsLeaveNoneSilent,
};

use crate::ends::settled_ends_leave_none_silent;

/// With crashes alone a target is reported on the rings whose observer has not crashed, or on all where crashed
/// observers speak, and no other process is reported.
pub fn crashed_observers_raise_no_alerts()
    ensures silent { CrashedObserversRaiseNone }
    ensures speak { SpeakingObserversRaiseAll }
    ensures others { NoneAreRaisedAboutOthers }
{}

/// With crashes alone every receiver proposes where alerts about each target are raised on at least H rings, or on L
/// with implicit alerts, since observers that have crashed are reported themselves and count then. If some target has
/// fewer, every receiver that proposes is a conflict ([`crate::reports::too_few_alerts_are_overlooked`]). So choose H,
/// or L with implicit alerts, of at most K less the observers of one process that may crash together with it.
pub fn enough_alerts_leave_none_silent()
    ensures { EnoughAlertsLeaveNoneSilent }
{
    cut_plan::laws::cells_are_the_combinations();
    cut_detector::laws::none_is_marked_unheard();
    cut_outcome::laws::receivers_are_the_rest();
    settled_ends_leave_none_silent();
    cut_detector::laws::targets_alone();
    cut_detector::laws::unstable_are_reported_and_not_stable();
}
