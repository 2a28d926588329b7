//! Laws of what stands at paths. Each function does nothing, and its contract is the law.

ghost use Rattle.cut_files.specs.Laws.{StaysEverywhere};

/// If nothing is changed elsewhere, and at the call's own path there is what there was, then nothing is changed at any
/// path: for example after a file is opened, only read, and closed.
pub fn places_stay_everywhere()
    ensures { StaysEverywhere }
{}
