ghost use Rattle.std.specs.Prelude.{◌≡◌, ◌<◌, ◌++◌, List, [], ◌∷◌, length, count_by, IfOk, OnOk, OnErr};
ghost use Rattle.cut_plan.specs.Cells.{cells_of};
ghost use Rattle.cut_plan.specs.Plan.{IsPlan};
ghost use Rattle.cut_ledger.specs.Contents.{all_trials};
ghost use Rattle.cut_ledger.specs.Tally.{has_cell, has_trial, HasAdded};
ghost use Rattle.cut_ledger.specs.declared.slip.Slip as slips;

use crate::Slip;
use crate::held_trials::{is_good, span_of, span_of_cell};
use cut_plan::Plan;
use cut_sets::ranges::RangeSet;
use std::alloc::{AllocError, Global};
use std::marker::Model;

/// Slips of a plan, judged one after another: which trials they hold, and how many they are, up to the first that a
/// ledger can't begin with. No list of them is kept, and no sums. Contracts see these as a record.
#[derive(Debug, Drop)]
pub struct SlipTally {
    plan: Plan,
    trials: RangeSet,
    held: u32,
    slips: u32,
    refused: Option<u64>,
}

impl Model for SlipTally {
    ghost use Rattle.cut_ledger.specs.Tally.{Tally};

    ghost Value = { Tally };

    ghost use Rattle.cut_ledger.specs.inside.TallyInside.{tally_of, IsTally};

    ghost view = { tally_of };

    ghost invariant = { IsTally };
}

impl SlipTally {
    /// A tally to which no slip was added.
    pub fn new(alloc: Global, plan: Plan) -> Result<SlipTally, AllocError>
        ensures plan { IfOk result (λ tally. tally.plan ≡ plan) }
        ensures empty { IfOk result (λ tally. HasAdded tally []) }
    {
        let trials = RangeSet::new(alloc, plan.cells(), plan.repeats())?;
        Ok(SlipTally {
            plan,
            trials,
            held: 0,
            slips: 0,
            refused: None,
        })
    }

    /// Adds the slip that comes after those before it. One that is not good is refused, and none that comes after it is
    /// judged any more.
    pub fn add(&mut self, slip: &Slip) -> Result<(), AllocError>
        ensures plan { self.new.plan ≡ self.old.plan }
        ensures added { OnOk result ((before : List slips.Slip) → HasAdded self.old before →
            HasAdded self.new (before ++ slip.now ∷ [])) }
        ensures err { OnErr result (self.new ≡ self.old) }
    {
        if self.refused.is_some() {
            return Ok(());
        }
        if !is_good(&self.trials, &self.plan, slip) {
            self.refused = Some(u64::from(self.slips) + 1);
            return Ok(());
        }
        self.trials.insert(span_of(slip.piece))?;
        self.held += slip.piece.count;
        self.slips += 1;
        Ok(())
    }

    /// The number of the first slip that was refused, from 1: it is no piece of the plan, has a trial of an earlier
    /// one, or its totals are not possible ones.
    pub fn refused(&self) -> Option<u64>
        ensures { result ≡ self.now.refused }
    {
        self.refused
    }

    /// The plan.
    pub fn plan(&self) -> &Plan
        ensures value { result.now ≡ self.now.plan }
        ensures plan { IsPlan self.now.plan }
    {
        &self.plan
    }

    /// How many slips were added, up to the first that was refused.
    pub fn slips(&self) -> u32
        ensures { result ≡ self.now.slips }
    {
        self.slips
    }

    /// How many trials are held.
    pub fn held(&self) -> u32
        ensures { result ≡ count_by (has_trial self.now) (all_trials self.now.plan) }
    {
        self.held
    }

    /// Whether every trial of a cell is held.
    pub fn cell_done(&self, cell: u32) -> bool
        requires { cell < length (cells_of self.now.plan) }
        ensures { result ≡ has_cell self.now cell }
    {
        self.trials.covers(span_of_cell(&self.plan, cell))
    }
}
