use crate::{Message, StreamFault};

/// What a reader found in a piece of a stream.
#[derive(Debug, Drop)]
pub struct Fed {
    /// The messages that the piece completed, in order.
    pub messages: Vec<Message>,
    /// What is wrong with the stream after these messages, if something is.
    pub fault: Option<StreamFault>,
}
