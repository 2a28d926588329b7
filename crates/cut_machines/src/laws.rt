//! Laws of studies that several machines run. Each function does nothing that is seen, and its contract is the law.

ghost use Rattle.cut_machines.specs.Laws.{CompleteSharesHaveAllTrials, FirstSlipsAreOfShare, ResumedSlipsAreOfShare};
ghost use Rattle.cut_machines.specs.Laws.{ResumedSlipsAreWhole, SharesAreGood, SharesAreTrue, SharesGiveThePlansTable};

/// Files of shares of one plan join to the plan's table, in any order, whatever the number of shares and the size of
/// blocks are, and however many shares are missing or stopped early: the slips of all files are true ones, no two of
/// which have a trial in common, and `join` takes them. If a file of each share is there and all are complete, each
/// trial of the plan is in exactly one of the joined slips.
pub fn shares_join_to_the_table()
    ensures slips { SharesAreTrue }
    ensures good { SharesAreGood }
    ensures table { SharesGiveThePlansTable }
    ensures whole { CompleteSharesHaveAllTrials }
{
    cut_ledger::laws::true_slips_give_the_table();
    cut_shares::join::laws::joined_slips_give_the_same_table();
    cut_shares::join::laws::joined_slips_have_the_same_trials();
}

/// A share may be stopped, by a crash too, and resumed: the first of its slips are slips of the share, and so are these
/// with those that a resumed run adds. They have all of its trials once a resumed run adds all that they lack.
pub fn shares_can_be_resumed()
    ensures first { FirstSlipsAreOfShare }
    ensures resumed { ResumedSlipsAreOfShare }
    ensures whole { ResumedSlipsAreWhole }
{}
