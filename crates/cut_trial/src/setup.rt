ghost use Rattle.std.specs.Prelude.{◌≡◌, length, OnOk};
ghost use Rattle.cut_outcome.specs.Verdicts.{targets_of, receivers_of};

use crate::alerts::Alerts;
use cut_alerts::Roles;
use std::alloc::AllocError;

/// A trial whose roles are drawn and whose alerts are raised.
#[derive(Clone, Copy)]
pub(crate) struct TrialSetup<'a> {
    pub alerts: &'a Alerts<'a>,
    pub roles: &'a Roles,
    pub targets: &'a [u16],
    pub receivers: &'a [u16],
    ghost nodes: { length roles.now.roles ≡ alerts.now.study.plan.now.nodes },
    ghost targets_are: { targets.now ≡ targets_of roles.now },
    ghost receivers_are: { receivers.now ≡ receivers_of roles.now },
}

/// Lists the targets, ascending, in place of what the list held.
pub(crate) fn list_targets(targets: &mut Vec<u16>, roles: &Roles) -> Result<(), AllocError>
    ensures { OnOk result (targets.new.items ≡ targets_of roles.now) }
{
    targets.clear();
    for process in 0..roles.nodes() {
        if !roles.is_target(process) {
            continue;
        }
        targets.push(process)?;
    }
    Ok(())
}

/// Lists the receivers, ascending, in place of what the list held.
pub(crate) fn list_receivers(receivers: &mut Vec<u16>, roles: &Roles) -> Result<(), AllocError>
    ensures { OnOk result (receivers.new.items ≡ receivers_of roles.now) }
{
    receivers.clear();
    for process in 0..roles.nodes() {
        if roles.is_target(process) {
            continue;
        }
        receivers.push(process)?;
    }
    Ok(())
}
