//! One set of two sections, of two blocks each.

ghost use Rattle.std.specs.Prelude.{◌≡◌, length};

use cut_sets::ranges::{RangeSet, Span};
use std::alloc::{AllocError, Global};
use std::test::Fail;

const SECTIONS: u32 = 2;

const SECTION_LEN: u32 = 70000;

fn span(first: u32, count: u32) -> Span
    ensures first { result.first ≡ first }
    ensures count { result.count ≡ count }
{
    Span { first, count }
}

// Puts a span in if it can be, and says whether it could.
fn put(set: &mut RangeSet, span: Span) -> Result<bool, AllocError> {
    if !set.is_of_section(span) || set.overlaps(span) {
        return Ok(false);
    }
    set.insert(span)?;
    Ok(true)
}

// Whether room is made in the first section alone.
fn gains_room(set: &mut RangeSet) -> Result<bool, AllocError>
    requires { length set.old.room ≡ 2 }
{
    let had_room = set.has_room(0) || set.has_room(1);
    set.reserve(0)?;
    Ok(!had_room && set.has_room(0) && !set.has_room(1))
}

// Whether these numbers are in a set, and their neighbours are not.
fn has_only(set: &RangeSet, first: u32, end: u32) -> bool {
    if first == 0 || end <= first || end >= set.len() {
        return false;
    }
    let is_in = set.contains(first) && set.contains(end - 1);
    let is_between = !set.contains(first - 1) && !set.contains(end);
    is_in && is_between && set.covers(span(first, end - first))
}

// Whether the first section of a set has these gaps.
fn has_gaps(alloc: Global, set: &RangeSet, wanted: &[Span]) -> Result<bool, AllocError> {
    if set.len() < SECTION_LEN {
        return Ok(false);
    }
    let mut gaps = Vec::new(alloc);
    set.gaps_into(span(0, SECTION_LEN), &mut gaps)?;
    Ok(gaps.as_slice() == wanted)
}

// A span over the end of a block is put in once; one that meets it, or goes into the second section, is not.
#[test]
fn numbers_are_put_in_and_found(rt: HostRuntime) -> Result<(), Fail> {
    let mut set = RangeSet::new(rt.alloc(), SECTIONS, SECTION_LEN)?;
    assert!(rt; gains_room(&mut set)?);
    for (first, count, is_put) in [(65530, 10, true), (65539, 5, false), (69990, 20, false)] {
        assert!(rt; put(&mut set, span(first, count))? == is_put, "{first}");
    }
    assert!(rt; has_only(&set, 65530, 65540));
    assert!(rt; has_gaps(rt.alloc(), &set, &[span(0, 65530), span(65540, 4460)])?);
    Ok(())
}

// Where memory may be refused, a number is put in, or the set stays as it was.
#[test]
fn refused_memory_leaves_a_set_as_it_was(rt: HostRuntime) -> Result<(), Fail> {
    let mut set = RangeSet::new(rt.alloc(), SECTIONS, SECTION_LEN)?;
    for place in 0..40 {
        let first = 65500 + 2 * place;
        let is_in = put(&mut set, span(first, 1)).is_ok();
        assert!(rt; is_in == has_only(&set, first, first + 1), "{first}");
        assert!(rt; is_in == !has_only(&set, first - 1, first), "{first}");
    }
    Ok(())
}
