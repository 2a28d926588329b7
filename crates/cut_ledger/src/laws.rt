//! What is true of every ledger, and of every run of a study, whatever happens to it. Each function does
//! nothing that is seen, and its contract is the law.

ghost use Rattle.std.specs.Prelude.{ℕ, Bool, List};
ghost use Rattle.std.specs.List.{AllByRecursion};
ghost use Rattle.cut_plan.specs.Values.{Values};
ghost use Rattle.cut_plan.specs.Plan.{IsPlan};
ghost use Rattle.cut_ledger.specs.Laws.{GapsCover, PiecesCover, SamePlansAreEqual};
ghost use Rattle.cut_ledger.specs.Laws.{PiecesFill, CompleteIsDone, FilledGiveTheirTable, SlipsMeetInTheirLedger};
ghost use Rattle.cut_ledger.specs.Laws.{TrueSlipsAreGood, TrueSlipsGiveTheTable, TrueSlipsSumAll, NoSlipsAreTrue};
ghost use Rattle.cut_ledger.specs.declared.event.Event.{Event};
ghost use Rattle.cut_ledger.specs.Machine.{start};
ghost use Rattle.cut_ledger.specs.World.{begun, run, HasTrueResult, IsRight, SayAlike};

/// The gaps, and the pieces of any size that they are cut into, have exactly the trials that are not held,
/// each of them once.
pub fn gaps_are_what_is_not_held()
    ensures gaps { GapsCover }
    ensures pieces { PiecesCover }
{
    cut_sets::ranges::laws::spans_are_what_passes();
}

/// The pieces of any size that a ledger lacks can be added in their order: none of them overlaps an earlier one, and at
/// the end every trial is held and every cell is done. What can be written then is the table over the slips that the
/// ledger began with.
pub fn pieces_fill_a_ledger()
    ensures fill { PiecesFill }
    ensures done { CompleteIsDone }
    ensures table { FilledGiveTheirTable }
{
    cut_sets::ranges::laws::spans_are_what_passes();
}

/// Slips are apart from a piece of their plan exactly where the ledger that begins with them holds no trial of it.
pub fn slips_meet_in_their_ledger()
    ensures { SlipsMeetInTheirLedger }
{}

/// A ledger can begin with true slips no two of which share a trial, and the table over them is the table of the plan.
/// So a study that is resumed from such slips, or from none, gives the table of an uninterrupted study.
pub fn true_slips_give_the_table()
    ensures good { TrueSlipsAreGood }
    ensures table { TrueSlipsGiveTheTable }
    ensures sums { TrueSlipsSumAll }
    ensures none { NoSlipsAreTrue }
{
    cut_outcome::laws::pieces_have_possible_totals();
}

/// Plans are distinguished by their canonical texts, and a plan can be read back from its own: so plans that
/// are the same are equal in every value.
pub fn same_plans_are_equal()
    ensures { SamePlansAreEqual }
{
    cut_plan::laws::canonical_text_reads_back();
}

/// Every run is right: over every list of events, resumptions after crashes included, and any results of any plans,
/// what the present wire took is a prefix of the plan's table, and all of it if the run answers that it is done; each
/// trial is held at most once; if all are held the whole table can be written; and the slips that are kept are true, no
/// trial being in two of them.
pub fn every_run_is_right()
    ensures { (journal : Bool) (v : Values) (size : ℕ) (events : List Event) → IsPlan v
        → AllByRecursion HasTrueResult events → IsRight v (run (begun (start v size journal)) events) }
{
    same_plans_are_equal();
}

/// One plan, one table: two runs of a plan that hold every trial, or that are done, give the same table,
/// whatever their divisions, the sizes of their pieces, the order, loss and repetition of results, their
/// wires and their crashes were.
pub fn one_plan_has_one_table()
    ensures { (v : Values) (journal other_journal : Bool) (size other_size : ℕ) (events others : List Event)
        → IsPlan v → AllByRecursion HasTrueResult events → AllByRecursion HasTrueResult others
        → SayAlike (run (begun (start v size journal)) events)
        (run (begun (start v other_size other_journal)) others) }
{
    same_plans_are_equal();
}
