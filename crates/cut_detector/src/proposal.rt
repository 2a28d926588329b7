use cut_lists::Items;

/// The processes of a proposal, ascending if a detector made it. Contracts see a list of numbers.
pub type Members = Items<u16>;

/// What a process proposes: which processes leave, and after how many deliveries (the Rapid paper's
/// section on multi-process cut detection; the place is this project's profile).
#[derive(Debug, Drop)]
pub struct Proposal {
    /// The stable processes at the proposal's place, ascending.
    pub members: Members,
    /// The number of the delivery that settled it, from 1.
    pub at: u64,
}
