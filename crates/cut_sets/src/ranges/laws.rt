//! What the words of this crate's contracts mean. Each function does nothing that is seen, and its contract is the
//! law.

ghost use Rattle.cut_sets.specs.ranges.Laws.{SpansCover, SpansWithin};

/// The longest spans of the numbers that pass a test, one after another, have exactly the numbers that pass, in
/// order and each once; none of the spans is empty, or goes beyond the numbers that are looked at.
pub fn spans_are_what_passes()
    ensures cover { SpansCover }
    ensures within { SpansWithin }
{}
