//! Laws of joined slips. Each function does nothing that is seen, and its contract is the law.

ghost use Rattle.cut_shares.specs.join.Laws.{JoinedAreApart, JoinedAreGood, JoinedAreTrue, JoinedGiveThePlansTable};
ghost use Rattle.cut_shares.specs.join.Laws.{JoinedGiveTheTable, JoinedHaveTheTrials};

/// Joining slips with which a ledger can begin keeps their trials, and a ledger can begin with the joined slips. No two
/// of these can be joined further.
pub fn joined_slips_have_the_same_trials()
    ensures trials { JoinedHaveTheTrials }
    ensures good { JoinedAreGood }
    ensures apart { JoinedAreApart }
{}

/// The sums of each cell stay, and so does the table over the slips. Slips that are true are so once they are joined,
/// and the table over these is that of the plan.
pub fn joined_slips_give_the_same_table()
    ensures slips { JoinedAreTrue }
    ensures table { JoinedGiveTheTable }
    ensures whole { JoinedGiveThePlansTable }
{
    cut_ledger::laws::true_slips_give_the_table();
}
