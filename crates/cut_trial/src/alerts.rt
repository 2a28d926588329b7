ghost use Rattle.std.specs.Prelude.{◌≡◌, ◌^◌, ◌≤◌, ℕ, length, OnOk, IsTrue};
ghost use Rattle.cut_plan.specs.Cells.{IsCellOf};
ghost use Rattle.cut_rings.specs.Edges.{are_edges_of, set_of, edges_in};
ghost use Rattle.cut_draws.specs.DeliveryOrder.{are_distinct};
ghost use Rattle.cut_alerts.specs.Alerted.{alert_list};
ghost use Rattle.cut_detector.specs.Rule.{rule_in, rule_of};

use crate::input::TrialInput;
use cut_alerts::{Roles, alerts_into};
use cut_detector::Rule;
use cut_plan::Cell;
use cut_rings::Edge;
use std::alloc::{AllocError, Global};

/// The alerted edges of a trial of a cell.
#[derive(Drop)]
pub(crate) struct Alerts<'a> {
    pub study: TrialInput<'a>,
    pub cell: Cell,
    pub edges: Vec<Edge>,
    ghost cell_of_plan: { IsCellOf study.plan.now cell },
    ghost within: { (n : ℕ) → study.plan.now.nodes ≤ n → IsTrue (are_edges_of cell.k n edges.items) },
    ghost distinct: { IsTrue (are_distinct cell.k edges.items) },
    ghost few: { length edges.items ≤ 2 ^ 16 },
    ghost grouped: { edges.items ≡ edges_in cell.k study.rings.now.nodes (set_of edges.items) },
}

impl<'a> Alerts<'a> {
    /// No alerts yet.
    pub fn none(alloc: Global, study: TrialInput<'a>, cell: Cell) -> Alerts<'a>
        requires { IsCellOf study.plan.now cell }
        ensures study { result.study ≡ study.entry }
        ensures cell { result.cell ≡ cell }
    {
        Alerts {
            study,
            cell,
            edges: Vec::new(alloc),
        }
    }

    /// Replaces the alerts by those that these roles raise.
    pub fn alert(&mut self, roles: &Roles) -> Result<(), AllocError>
        requires { length roles.now.roles ≡ self.old.study.plan.now.nodes }
        ensures edges { OnOk result
            (self.new.edges.items ≡ alert_list self.old.study.rings.now roles.now self.old.cell.k) }
        ensures study { self.new.study ≡ self.old.study }
        ensures cell { self.new.cell ≡ self.old.cell }
    {
        alerts_into(&mut self.edges, self.study.rings, self.cell.k, roles)
    }

    /// By which processes are reported and stable.
    pub fn rule(&self) -> Rule
        ensures rule { rule_in result
            ≡ rule_of self.now.cell.k self.now.cell.h self.now.cell.l self.now.study.plan.now.implicit }
        ensures rings { result.k ≤ length self.now.study.rings.now.positions }
    {
        Rule {
            k: self.cell.k,
            h: self.cell.h,
            l: self.cell.l,
            implicit: self.study.plan.implicit(),
        }
    }
}
