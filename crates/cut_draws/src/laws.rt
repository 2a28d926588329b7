//! Laws of the order in which alerts come to a receiver. Each function does nothing, and its contract is the law.

ghost use Rattle.cut_draws.specs.Laws.{
  DistinctEdgesHaveAnOrder,
  DeliveriesStandAtTheirRanks,
  DeliveriesAreOfGivenEdges,
  DeliveriesAreCopiesOfEdges,
  DeliveriesAreCountedByCopies,
  EdgesComeAtTheirFirstTime,
  NoneIsHeardOfAtFirst,
  HeardOfStays,
  AllAreHeardOfInTheEnd,
  LesserImagesComeBefore,
  LowImagesComeFirst,
  LowImagesAreHeardOf,
  ImagesStandAtTheirTimes,
  ImagesRise,
  LeastImageIsTheFirst,
};

/// The deliveries of distinct edges have an order, in which each stands at the number of deliveries before it.
pub fn distinct_edges_have_an_order()
    ensures order { DistinctEdgesHaveAnOrder }
    ensures ranks { DeliveriesStandAtTheirRanks }
{}

/// The deliveries are the copies of the given edges: as many as copies of all edges, and counted copy by copy.
pub fn deliveries_are_copies_of_edges()
    ensures given { DeliveriesAreOfGivenEdges }
    ensures all { DeliveriesAreCopiesOfEdges }
    ensures counted { DeliveriesAreCountedByCopies }
{}

/// After some deliveries a receiver knows of exactly those edges whose first copy was among them: of none before the
/// first delivery, and of all after the last. It forgets none.
pub fn edges_come_at_their_first_time()
    ensures time { EdgesComeAtTheirFirstTime }
    ensures none { NoneIsHeardOfAtFirst }
    ensures stays { HeardOfStays }
    ensures all { AllAreHeardOfInTheEnd }
{}

/// If the high bits of two deliveries' keys differ, they decide which comes first. So the deliveries with images up to
/// a number come before all others, and after them a receiver knows of the edges whose least image is at most that
/// number.
pub fn lesser_images_come_before()
    ensures before { LesserImagesComeBefore }
    ensures first { LowImagesComeFirst }
    ensures heard { LowImagesAreHeardOf }
{}

/// Along the order of deliveries images only rise, and the least image of an edge's copies is the one at its first
/// time.
pub fn images_rise()
    ensures at { ImagesStandAtTheirTimes }
    ensures rise { ImagesRise }
    ensures least { LeastImageIsTheFirst }
{}
