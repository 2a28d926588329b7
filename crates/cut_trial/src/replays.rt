ghost use Rattle.std.specs.Prelude.{◌≡◌, ◌^◌, ◌<◌, ◌≤◌, OnOk, IfOk};
ghost use Rattle.cut_plan.specs.Cells.{IsCellOf};
ghost use Rattle.cut_trial.specs.inside.Judging.{BelongsTo, proposed_by};

use crate::alerts::Alerts;
use crate::deliveries::deliver_all;
use crate::input::TrialInput;
use cut_detector::Detector;
use cut_draws::{DeliveryOrder, Draws};
use cut_plan::Cell;
use std::alloc::{AllocError, Global};

/// Replays the trials of a cell for one receiver after another, with a detector and an order of deliveries whose memory
/// all receivers share.
#[derive(Drop)]
pub(crate) struct Replay<'a> {
    pub detector: Detector<'a>,
    order: DeliveryOrder,
}

impl<'a> Replay<'a> {
    /// The replays of the trials of a cell.
    pub fn new(alloc: Global, study: TrialInput<'a>, cell: Cell) -> Result<Replay<'a>, AllocError>
        requires { IsCellOf study.plan.now cell }
        ensures { IfOk result (λ r. BelongsTo study.entry cell r) }
    {
        let implicit = study.plan.implicit();
        let detector = Detector::new(alloc, study.rings, cell.k, cell.h, cell.l, implicit)?;
        Ok(Replay {
            detector,
            order: DeliveryOrder::new(alloc),
        })
    }

    /// Delivers the alerts to a receiver in its own order, until it proposes.
    pub fn receive(
        &mut self,
        draws: &mut Draws,
        alerts: &Alerts<'_>,
        receiver: u16,
    ) -> Result<(), AllocError>
        requires belong { BelongsTo alerts.now.study alerts.now.cell self.old }
        requires receiver { receiver < alerts.now.study.plan.now.nodes }
        ensures proposal { OnOk result (self.new.detector.proposal ≡ proposed_by alerts.now draws.old receiver) }
        ensures few { OnOk result (self.new.detector.deliveries ≤ 2 ^ 31) }
        ensures draws { draws.new ≡ draws.old }
        ensures belong { BelongsTo alerts.now.study alerts.now.cell self.new }
    {
        let copies = alerts.study.plan.copies();
        let edges = alerts.edges.as_slice();
        draws.order_deliveries(&mut self.order, receiver, alerts.cell.k, edges, copies)?;
        deliver_all(&mut self.detector, &self.order);
        Ok(())
    }
}
