use crate::{Kind, Payload};

/// A message of a client or of a server.
#[derive(Debug, Drop)]
pub struct Message {
    /// What it is for.
    pub kind: Kind,
    /// What it carries: at most 65,536 bytes.
    pub payload: Payload,
}
