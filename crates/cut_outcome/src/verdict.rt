/// How a receiver's proposal compares with the processes that really failed.
#[derive(Clone, Copy, Debug, PartialEq, Eq)]
pub struct Verdict {
    /// It announced nothing.
    pub silent: bool,
    /// It announced a proposal that lacks a target (a conflict in the Rapid paper's study).
    pub conflict: bool,
    /// It announced a proposal with a process that is not a target.
    pub extra: bool,
}
