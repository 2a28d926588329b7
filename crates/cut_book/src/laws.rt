//! What is true of every study, whatever is called. Each function does nothing that is seen, and its contract is the law.

ghost use Rattle.cut_book.specs.Kept.{StudiesTakeTheirOwn};

/// A study takes true slips of its plan, each of trials that were in no slip before; it has taken all of them where every
/// trial is held; and with a journal it keeps them after those that it was opened with.
pub fn studies_take_their_own()
    ensures { StudiesTakeTheirOwn }
{
    cut_ledger::laws::same_plans_are_equal();
}
