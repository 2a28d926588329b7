use cut_rings::Edge;

/// A delivery of an alert to a receiver: the alerted edge, and which of its copies.
#[derive(Clone, Copy, Debug, PartialEq, Eq)]
pub struct Delivery {
    /// The alerted edge.
    pub edge: Edge,
    /// The copy's number, from 0.
    pub copy: u8,
}
