//! What is true of every journal of a run, whatever crash comes. Each function does nothing that is seen, and
//! its contract is the law.

ghost use Rattle.cut_disks.specs.Log.{Knows};
ghost use Rattle.cut_journal.specs.Journal.{IsFileOf};
ghost use Rattle.cut_journal.specs.Laws.{AppendsFollow, CrashesBetweenCalls, CrashesInAppends, OpeningsFollow};
ghost use Rattle.cut_journal.specs.Laws.{OtherEventsFollow, ResumedSlipsAreGood};

use crate::Journal;
use cut_disks::Disk;

/// Between calls, whatever a crash may leave of the disk of a journal, if it is known, is read as the slips that are
/// kept, or as these and the doubtful one.
pub fn journals_stay_readable<D: Disk>(journal: &Journal<D>)
    ensures sound { Knows (D.log journal.now.disk)
        (IsFileOf journal.now.plan journal.now.count journal.now.doubtful) }
{
    let _ = journal.disk();
}

/// A crash is a resumption of the run, as the machine has it: whatever is left of the disk, between two calls
/// or at any moment of an append, says the slips that the run finds with one choice whether the slip whose
/// append was under way is kept.
pub fn crashes_are_resumptions()
    ensures between { CrashesBetweenCalls }
    ensures within { CrashesInAppends }
{}

/// A journal that was made or opened again is that of the run that is opened over its slips, and stays so
/// whatever happens that is no result and no crash.
pub fn journals_begin_with_their_runs()
    ensures opening { OpeningsFollow }
    ensures others { OtherEventsFollow }
{}

/// An append that succeeds is a result that the run takes, and one in which the disk failed is a result whose
/// append failed: after both the journal is that of the run again.
pub fn appends_follow_the_run<D: Disk>()
    ensures { AppendsFollow D }
{}

/// The slips that a run finds after a crash, whatever came before it, are true and no trial is in two of
/// them: so a ledger begins with them, and none is a bad one.
pub fn resumed_slips_are_good()
    ensures { ResumedSlipsAreGood }
{
    cut_ledger::laws::every_run_is_right();
    cut_ledger::laws::true_slips_give_the_table();
}
