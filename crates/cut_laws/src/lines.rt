//! The laws on sums over trials, as laws on the lines of a plan's table.

ghost use Rattle.cut_laws.specs.Lines.{
  TrialsAreOfTheirLine,
  EachLineIsWithinBounds,
  TooManyFailedOnALine,
  NoneFailedOnALine,
  OneCrashOnALine,
  OneCrashIsSettledOnALine,
  NoGapOnALine,
  ImplicitAlertsChangeNoLine,
  AHigherHOnEachLine,
  ALowerLOnEachLine,
};

use crate::columns::{
    no_targets_leave_no_conflicts, the_others_are_right, too_few_voters_decide_nothing,
    wrong_decisions_need_a_wrong_quorum,
};
use crate::equal_watermarks::{equal_watermarks_split_failures, implicit_alerts_change_nothing};
use crate::one_crash::{one_crash_is_found, one_crash_is_settled_by_h};
use crate::other_watermarks::{a_higher_h_waits_longer, a_lower_l_waits_longer};

/// The trials whose sums a line has are trials of its cell: so what holds of the sums over such trials holds of it.
pub fn trials_are_of_their_line()
    ensures { TrialsAreOfTheirLine }
{}

/// What the numbers of one line say of each other: on each line, and on lines where too many fail, if none does, where
/// one crashes and nothing else fails, and where L = H.
pub fn numbers_of_a_line()
    ensures each { EachLineIsWithinBounds }
    ensures failed { TooManyFailedOnALine }
    ensures none { NoneFailedOnALine }
    ensures one_crash { OneCrashOnALine }
    ensures settled { OneCrashIsSettledOnALine }
    ensures no_gap { NoGapOnALine }
{
    equal_watermarks_split_failures();
    no_targets_leave_no_conflicts();
    one_crash_is_found();
    one_crash_is_settled_by_h();
    the_others_are_right();
    too_few_voters_decide_nothing();
    trials_are_of_their_line();
    wrong_decisions_need_a_wrong_quorum();
}

/// What those of the same line of two tables do, of plans that differ in implicit alerts alone, in H alone or in L
/// alone.
pub fn same_line_of_two_tables()
    ensures implicit { ImplicitAlertsChangeNoLine }
    ensures high { AHigherHOnEachLine }
    ensures low { ALowerLOnEachLine }
{
    a_higher_h_waits_longer();
    a_lower_l_waits_longer();
    implicit_alerts_change_nothing();
    trials_are_of_their_line();
}
