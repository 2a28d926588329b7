/// What the program reaches by paths: files, and servers at their sockets.
#[derive(Drop)]
pub struct Devices<F, S> {
    /// The files of plans and checkpoints.
    pub files: F,
    /// The sockets of servers that are asked for tables.
    pub sockets: S,
}
