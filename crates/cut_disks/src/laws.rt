//! Laws of disks. Each function does nothing, and its contract is the law.

ghost use Rattle.cut_disks.specs.Laws.{ReadsAreImages, WritesStayInSpan};

/// What reads give of a disk in memory is one of the contents that a crash could leave now.
pub fn reads_are_images()
    ensures { ReadsAreImages }
{}

/// A write changes only the places that it writes.
pub fn writes_stay_in_their_span()
    ensures { WritesStayInSpan }
{}
