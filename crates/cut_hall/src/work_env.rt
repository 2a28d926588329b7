use std::alloc::Global;

/// What a thread works with on the studies of a hall, beside its pass.
#[derive(Clone, Copy)]
pub struct WorkEnv<'a, R, G> {
    /// What it waits with.
    pub rt: &'a R,
    /// Where memory is taken from.
    pub alloc: Global,
    /// What it calls at each stage of its work.
    pub gate: &'a G,
}
