ghost use Rattle.std.specs.Prelude.{IfSome};
ghost use Rattle.std.proofs.Props.{props};
ghost use Rattle.cut_arrivals.specs.candidates.KeyPlaces.{AreConsecutive};

use crate::candidates::KeyPlace;

/// What makes a ring count for a process in the end. At least one of the two is there.
#[derive(Clone, Copy, Debug)]
pub struct Cause {
    /// Where the image of the ring's alert stands, if there is an alert.
    pub heard: Option<KeyPlace>,
    /// The place of the ring's observer among the candidates, if implicit alerts add the ring once both are reported.
    pub gained: Option<u16>,
}

/// A process that all alerts together report on at least L rings.
#[derive(Debug, Drop)]
pub struct Candidate {
    /// Which process it is.
    pub subject: u16,
    /// Where the images of its alerts stand, ring by ring.
    pub heard: Vec<KeyPlace>,
    /// Where the first of these stands among the images of all blocks, if they stand there one after another.
    pub consecutive_from: Option<usize>,
    /// The rings that count for it when all alerts have come, ring by ring.
    pub causes: Vec<Cause>,
    /// Whether implicit alerts add some ring.
    pub gains: bool,
    ghost consecutive: { IfSome consecutive_from (λ first. AreConsecutive first heard.items) } by { Prim.hlevel props },
}
