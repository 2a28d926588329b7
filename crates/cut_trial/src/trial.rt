ghost use Rattle.std.specs.Prelude.{◌≡◌, ◌<◌, IfOk};
ghost use Rattle.cut_plan.specs.Cells.{IsCellOf, trial_count};
ghost use Rattle.cut_outcome.specs.Outcome.{rings_of, cell_at, outcome};
ghost use Rattle.cut_trial.specs.inside.Judging.{AreFor};

use crate::alerts::Alerts;
use crate::input::TrialInput;
use crate::receiver_judge::ReceiverJudge;
use crate::setup::{TrialSetup, list_receivers, list_targets};
use cut_alerts::Roles;
use cut_draws::{Draws, ProcessOrder};
use cut_outcome::Totals;
use cut_plan::{Cell, Plan};
use cut_rings::Rings;
use std::alloc::{AllocError, Global};

/// The outcome of a trial of a plan, whose rings these are. Trials are numbered through all cells. That each receiver
/// hears the alerts in a random order of its own, and that conflicts are counted, is the Rapid paper's sensitivity
/// study; the other numbers are this project's profile.
pub fn run_trial(
    alloc: Global,
    plan: &Plan,
    rings: &Rings,
    trial: u32,
) -> Result<Totals, AllocError>
    requires trial { trial < trial_count plan.now }
    requires rings { rings.now ≡ rings_of plan.now }
    ensures { IfOk result (λ totals. totals ≡ outcome plan.now trial) }
{
    let cell = plan.cell(plan.cell_of(trial));
    let mut trials = Trials::new(alloc, TrialInput::new(plan, rings), cell)?;
    trials.run(trial)
}

/// Runs the trials of a cell, one after another, in memory that they share.
#[derive(Drop)]
pub(crate) struct Trials<'a> {
    pub alerts: Alerts<'a>,
    alloc: Global,
    roles: Roles,
    processes: ProcessOrder,
    targets: Vec<u16>,
    receivers: Vec<u16>,
    receiver_judge: ReceiverJudge<'a>,
    ghost fit: { AreFor alerts.study alerts.cell receiver_judge },
}

impl<'a> Trials<'a> {
    /// A runner for the trials of this cell.
    pub fn new(alloc: Global, study: TrialInput<'a>, cell: Cell) -> Result<Trials<'a>, AllocError>
        requires { IsCellOf study.plan.now cell }
        ensures study { IfOk result (λ t. t.alerts.study.plan.now ≡ study.entry.plan.now) }
        ensures cell { IfOk result (λ t. t.alerts.cell ≡ cell) }
    {
        Ok(Trials {
            alerts: Alerts::none(alloc, study, cell),
            alloc,
            roles: Roles::none(alloc),
            processes: ProcessOrder::new(alloc),
            targets: Vec::new(alloc),
            receivers: Vec::new(alloc),
            receiver_judge: ReceiverJudge::new(alloc, study, cell)?,
        })
    }

    /// The outcome of a trial of the cell.
    pub fn run(&mut self, trial: u32) -> Result<Totals, AllocError>
        requires { self.old.alerts.cell ≡ cell_at self.old.alerts.study.plan.now trial }
        ensures outcome { IfOk result (λ totals. totals ≡ outcome self.old.alerts.study.plan.now trial) }
        ensures study { self.new.alerts.study ≡ self.old.alerts.study }
        ensures cell { self.new.alerts.cell ≡ self.old.alerts.cell }
    {
        let TrialInput { plan, rings } = self.alerts.study;
        let cell = self.alerts.cell;
        let mut draws = Draws::new(plan.seed(), trial);
        let order = &mut self.processes;
        self.roles.draw(plan, cell, &mut draws, order, rings)?;
        self.alerts.alert(&self.roles)?;
        list_targets(&mut self.targets, &self.roles)?;
        list_receivers(&mut self.receivers, &self.roles)?;
        let setup = TrialSetup {
            alerts: &self.alerts,
            roles: &self.roles,
            targets: self.targets.as_slice(),
            receivers: self.receivers.as_slice(),
        };
        self.receiver_judge
            .judge(self.alloc, &mut draws, trial, setup)?;
        Ok(
            self.receiver_judge
                .outcome
                .totals(plan, cell, setup.targets),
        )
    }
}
