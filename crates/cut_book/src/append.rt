ghost use Rattle.std.specs.Prelude.{◌≡◌, None, Some, IfSome, IsErr, IsSome};
ghost use Rattle.cut_ledger.specs.Machine.{StudyState, after, slip_of};
ghost use Rattle.cut_ledger.specs.Refusals.{refusal_of};
ghost use Rattle.cut_ledger.specs.declared.event.Event.TheVariants as event;
ghost use Rattle.cut_book.specs.Book.{JournalAfter, faults_after, failures_of, FollowsState};
ghost use Rattle.cut_book.specs.inside.Book.{IsAppended, append_answer, doubt_after};
ghost use Rattle.cut_book.specs.Book.{LeavesResumed, IsAsKnown};
ghost use Rattle.cut_book.specs.History.{event_of};

use cut_disks::{Disk, DiskFault};
use cut_journal::{Journal, laws};
use cut_outcome::PieceResult;

/// Appends the slip of a result to a journal, if there is one. Fails if the disk does.
#[tactic(auto, using(crate::proofs::Resumed::resumed_append))]
pub(crate) fn append<D: Disk>(
    journal: &mut Option<Journal<D>>,
    offered: &PieceResult,
) -> Result<(), DiskFault>
    requires own { IfSome journal.old (λ log. (log.plan ≡ offered.now.plan) × (log.doubtful ≡ None)) }
    ensures journal { JournalAfter (append_answer result) (slip_of offered.now) journal.old journal.new }
    ensures appended { IsAppended (doubt_after (append_answer result) (slip_of offered.now)) offered.now.plan
        journal.old journal.new }
    ensures failed { IsErr result → IsSome journal.old }
    ensures follows { (s : StudyState) → refusal_of s.ledger offered.now ≡ None
        → FollowsState D.log journal.old s
        → FollowsState D.log journal.new (after s (event_of (append_answer result) offered.now)) }
    ensures moments { (s : StudyState) → refusal_of s.ledger offered.now ≡ None
        → FollowsState D.log journal.old s
        → LeavesResumed D.log journal.old journal.new
        (after s (event.HandInDiskFails offered.now)) }
    ensures known { IsAsKnown D.log journal.old journal.new }
    ensures faults { failures_of D.log journal.new
        ≡ faults_after (Some (append_answer result)) (failures_of D.log journal.old) }
{
    laws::crashes_are_resumptions();
    match journal {
        None => Ok(()),
        Some(journal) => {
            laws::appends_follow_the_run::<D>();
            match journal.append(offered) {
                Ok(_) => Ok(()),
                Err(_) => Err(DiskFault),
            }
        }
    }
}
