/// The state of a detector after a delivery.
#[derive(Clone, Copy, Debug, PartialEq, Eq)]
pub enum Step {
    /// There is no proposal yet.
    Waiting,
    /// There is a proposal, which no later delivery changes.
    Settled,
}
