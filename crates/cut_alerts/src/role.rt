/// What a process is in a trial.
#[derive(Clone, Copy, Debug, PartialEq, Eq)]
pub enum Role {
    /// It works, and so do its links.
    Healthy,
    /// A target that has crashed.
    Crashed,
    /// A target that is alive, while everything sent to it is lost.
    Deaf,
    /// It raises alerts about all its subjects.
    Liar,
    /// Its link to this process is cut.
    LinkSource(u16),
}
