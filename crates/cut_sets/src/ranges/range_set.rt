ghost use Rattle.std.specs.Prelude.{◌≡◌, ◌+◌, ◌*◌, ◌/◌, ◌<◌, ◌≤◌, ◌^◌, ◌↔◌, ◌++◌, false, true, not, length};
ghost use Rattle.std.specs.Prelude.{replicate, slice_set, IfOk, OnOk, OnErr, IsOk, IsTrue};
ghost use Rattle.std.specs.List.{list_all};
ghost use Rattle.cut_sets.specs.ranges.inside.Edges.{flipped, IsRun};
ghost use Rattle.cut_sets.specs.ranges.Held.{has, overlaps, covers, with_span, has_room, IsOfSection, KeepsOtherRoom};
ghost use Rattle.cut_sets.specs.ranges.Spans.{numbers_in, spans, span_between};

use crate::ranges::Span;
use crate::ranges::run::Run;
use crate::ranges::section::Section;
use std::alloc::{AllocError, Global};
use std::marker::Model;

/// A set of numbers below a length. Contracts see which numbers are in the set, and into which sections a span can be
/// inserted without memory.
#[derive(Debug, Drop)]
pub struct RangeSet {
    sections: Vec<Section>,
    section_len: u32,
}

impl Model for RangeSet {
    ghost use Rattle.cut_sets.specs.ranges.Held.{Held};
    ghost use Rattle.cut_sets.specs.ranges.inside.SetInside.{held_of, IsSet};

    ghost Value = { Held };

    ghost view = { held_of };

    ghost invariant = { IsSet };
}

impl RangeSet {
    /// The empty set, whose length is that of all its sections. It takes 24 bytes for each 65,536 numbers of a section,
    /// rounded up.
    pub fn new(alloc: Global, sections: u32, section_len: u32) -> Result<RangeSet, AllocError>
        requires some { 0 < section_len }
        requires few { sections * section_len < 2 ^ 32 }
        ensures held { IfOk result (λ s. s.held ≡ replicate (sections * section_len) false) }
        ensures section_len { IfOk result (λ s. s.section_len ≡ section_len) }
        ensures room { IfOk result (λ s. length s.room ≡ sections) }
    {
        let mut list = Vec::with_capacity(alloc, sections as usize)?;
        for _section in 0..sections {
            list.push(Section::new(alloc, section_len)?)?;
        }
        Ok(RangeSet {
            sections: list,
            section_len,
        })
    }

    /// The length: the set has numbers below it.
    pub fn len(&self) -> u32
        ensures { result ≡ length self.now.held }
    {
        self.sections.len() as u32 * self.section_len
    }

    /// Whether a span is not empty and lies in one section.
    pub fn is_of_section(&self, span: Span) -> bool
        ensures { IsTrue result ↔ IsOfSection self.now span }
    {
        if span.count == 0 || span.count > self.len() || span.first > self.len() - span.count {
            return false;
        }
        let last = span.first + span.count - 1;
        last / self.section_len == span.first / self.section_len
    }

    /// Whether a number is in the set.
    pub fn contains(&self, number: u32) -> bool
        requires { number < length self.now.held }
        ensures { result ≡ has self.now number }
    {
        self.run_at(number).held
    }

    /// Whether any number of a span is in the set.
    pub fn overlaps(&self, span: Span) -> bool
        requires { span.first + span.count ≤ length self.now.held }
        ensures { result ≡ overlaps self.now span }
    {
        !self.is_all(span, false)
    }

    /// Whether every number of a span is in the set.
    pub fn covers(&self, span: Span) -> bool
        requires { span.first + span.count ≤ length self.now.held }
        ensures { result ≡ covers self.now span }
    {
        self.is_all(span, true)
    }

    /// Whether all numbers of a span are in the set (`held`), or none is.
    fn is_all(&self, span: Span, held: bool) -> bool
        requires { span.first + span.count ≤ length self.now.held }
        ensures { result ≡ list_all (λ t. flipped (not held) (has self.now t)) (numbers_in span) }
    {
        let end = self.end_of(span);
        let mut from = span.first;
        while from < end {
            let run = self.run_at(from);
            if run.held != held {
                return false;
            }
            from = run.end;
        }
        true
    }

    /// The number after the last one of a span.
    fn end_of(&self, span: Span) -> u32
        requires { span.first + span.count ≤ length self.now.held }
        ensures { result ≡ span.first + span.count }
    {
        let _ = &self.sections;
        span.first + span.count
    }

    /// Whether a span can be inserted into a section without memory.
    pub fn has_room(&self, section: u32) -> bool
        requires { section < length self.now.room }
        ensures { result ≡ has_room self.now section }
    {
        self.sections[section as usize].has_room()
    }

    /// Reserves room for one more span in a section.
    pub fn reserve(&mut self, section: u32) -> Result<(), AllocError>
        requires { section < length self.old.room }
        ensures ok { OnOk result (self.new ≡ record self.old { room = slice_set self.old.room section true }) }
        ensures room { IsTrue (has_room self.old section) → IsOk result }
        ensures err { OnErr result (self.new ≡ self.old) }
    {
        self.sections[section as usize].reserve()
    }

    /// Inserts a span, none of whose numbers is in the set. It never fails if the section has room.
    pub fn insert(&mut self, span: Span) -> Result<(), AllocError>
        requires section { IsOfSection self.old span }
        requires apart { overlaps self.old span ≡ false }
        ensures held { OnOk result (self.new.held ≡ with_span self.old span) }
        ensures others { OnOk result (KeepsOtherRoom self.old self.new (span.first / self.old.section_len)) }
        ensures room { IsTrue (has_room self.old (span.first / self.old.section_len)) → IsOk result }
        ensures section_len { self.new.section_len ≡ self.old.section_len }
        ensures err { OnErr result (self.new ≡ self.old) }
    {
        let from = span.first % self.section_len;
        let section = (span.first / self.section_len) as usize;
        self.sections[section].insert(from, from + span.count)
    }

    /// Appends the gaps within a span to `gaps`: the longest spans of numbers that are not in the set, ascending.
    pub fn gaps_into(&self, span: Span, gaps: &mut Vec<Span>) -> Result<(), AllocError>
        requires { span.first + span.count ≤ length self.now.held }
        ensures { OnOk result (gaps.new.items
            ≡ gaps.old.items ++ spans (λ t. not (has self.now t)) span.first span.count) }
    {
        let end = self.end_of(span);
        let mut start = span.first;
        let mut from = span.first;
        while from < end {
            let run = self.run_at(from);
            let next = run.end.min(end);
            if run.held {
                push_gap(gaps, start, from)?;
                start = next;
            }
            from = next;
        }
        push_gap(gaps, start, end)
    }

    /// Whether `number` is in the set, and where that changes next.
    fn run_at(&self, number: u32) -> Run
        requires { number < length self.now.held }
        ensures run { IsRun (has self.now) number result }
        ensures within { result.end ≤ length self.now.held }
    {
        let place = number % self.section_len;
        let run = self.sections[(number / self.section_len) as usize].run_at(place);
        Run {
            held: run.held,
            end: number - place + run.end.min(self.section_len),
        }
    }
}

/// Appends the gap `from..end` unless it is empty.
fn push_gap(gaps: &mut Vec<Span>, from: u32, end: u32) -> Result<(), AllocError>
    requires { from ≤ end }
    ensures { OnOk result (gaps.new.items ≡ gaps.old.items ++ span_between from end) }
{
    if from == end {
        return Ok(());
    }
    gaps.push(Span {
        first: from,
        count: end - from,
    })?;
    Ok(())
}
