//! What is true of the blocks that keys stand in, and of the keys' images. Each function does nothing that is seen,
//! and its contract is the law.
ghost use Rattle.cut_arrivals.specs.blocks.Images.{DeliveriesStandInBlocks, CopiesAreApart, ImagesAreBelowNever};

/// The key of a delivery stands in the block that its edge's number says, of the row of its copy and receiver; the row
/// of a copy is 2^24 blocks after that of the one before.
pub fn deliveries_stand_in_blocks()
    ensures place { DeliveriesStandInBlocks }
    ensures rows { CopiesAreApart }
{}

/// An image has 30 bits.
pub fn images_are_below_never()
    ensures { ImagesAreBelowNever }
{}
