ghost use Rattle.std.specs.Prelude.{◌≡◌, IfErr, IfOk, OnOk};
ghost use Rattle.cut_ledger.specs.Slips.{AreGood, IsFaultOfSlips};
ghost use Rattle.cut_journal.specs.Accepted.{AcceptedValue};

use cut_ledger::{Ledger, Slip, SlipsFault};
use cut_plan::Plan;
use std::alloc::Global;
use std::marker::Model;

/// Slips that were judged as one list against a plan: a ledger of the plan can begin with them.
#[derive(Drop)]
pub struct AcceptedSlips<'a> {
    plan: &'a Plan,
    slips: Vec<Slip>,
}

impl<'a> Model for AcceptedSlips<'a> {
    ghost use Rattle.cut_ledger.specs.Slips.{AreGood};
    ghost use Rattle.cut_journal.specs.Accepted.{AcceptedValue};

    ghost Value = { AcceptedValue };

    ghost view = { λ accepted. record { plan = accepted.plan.now; slips = accepted.slips.items } };

    ghost invariant = { λ accepted. AreGood accepted.plan.now accepted.slips.items };
}

impl<'a> AcceptedSlips<'a> {
    /// Judges slips of a plan. The first with which no ledger begins, after those before it, is reported by its number.
    pub fn judge(
        alloc: Global,
        plan: &'a Plan,
        slips: Vec<Slip>,
    ) -> Result<AcceptedSlips<'a>, SlipsFault>
        ensures plan { IfOk result (λ accepted. accepted.plan ≡ plan.now) }
        ensures slips { IfOk result (λ accepted. accepted.slips ≡ slips.items) }
        ensures good { OnOk result (AreGood plan.now slips.items) }
        ensures refused { IfErr result (IsFaultOfSlips plan.now slips.items) }
    {
        Ledger::from_slips(alloc, plan.try_clone(alloc)?, &slips)?;
        Ok(AcceptedSlips { plan, slips })
    }

    /// The plan.
    pub fn plan(&self) -> &Plan
        ensures { result.now ≡ self.now.plan }
    {
        self.plan
    }

    /// The slips.
    pub fn slips(&self) -> &[Slip]
        ensures slips { result.now ≡ self.now.slips }
        ensures good { AreGood self.now.plan self.now.slips }
    {
        &self.slips
    }
}
