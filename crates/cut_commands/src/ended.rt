use crate::CliFault;

/// How a command, or a step of one, ended over a disk, and the disk, with what was done to it.
#[derive(Drop)]
pub struct Ended<D, T> {
    /// The disk.
    pub disk: D,
    /// What came of it, or the fault that ended it.
    pub ended: Result<T, CliFault>,
}
