use cut_ledger::Base;
use cut_plan::Plan;

/// What [`Hall::submit`](crate::Hall::submit) gives: the number of a study's slot, its plan, and the slips that
/// it began with. By it a line of the study can be asked for.
#[derive(Debug, Drop)]
pub struct Opened {
    /// The number of its slot, from 0.
    pub study: u32,
    /// The plan.
    pub plan: Plan,
    /// The slips that it began with.
    pub base: Base,
}
