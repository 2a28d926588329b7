//! What the first bytes of a file say.

ghost use Rattle.std.specs.Prelude.{◌≡◌, ◌+◌, ◌≤◌, false, length, slice_range, IfSome, IfNone, if◌then◌else◌};
ghost use Rattle.std.specs.Prelude.{Some, None};
ghost use Rattle.cut_journal.specs.Reading.{can_have_header, has_header, is_study, text_length};
ghost use Rattle.cut_journal.specs.inside.Steps.{head_reading};

use crate::format::{FileHeader, OPEN_GATE, digest_of};
use crate::{JournalFault, layout};

/// Whether bytes hold a study of some plan.
pub fn is_study(bytes: &[u8]) -> bool
    ensures { result ≡ is_study bytes.now }
{
    bytes.len() > 1 && bytes[0] == OPEN_GATE
}

/// The text that a header says of its plan, if the bytes go on so far. Nothing else of the header is read.
pub fn header_text(bytes: &[u8]) -> Option<&[u8]>
    ensures text { IfSome result
        (λ text. text.now ≡ slice_range bytes.now 13 (text_length bytes.now + 13)) }
    ensures within { IfSome result (λ text. text_length bytes.now + 13 ≤ length bytes.now) }
    ensures none { IfNone result (has_header bytes.now ≡ false) }
{
    if bytes.len() < 13 {
        return None;
    }
    let length = length_in_header(bytes);
    if length > bytes.len() - 13 {
        return None;
    }
    Some(&bytes[13..length + 13])
}

/// What bytes say up to the gate of a first slip: that they are of a plan's study, or why not.
pub(crate) fn check_head(study: &FileHeader, bytes: &[u8]) -> Result<(), JournalFault>
    ensures { result ≡ head_reading study.now bytes.now }
{
    if !is_study(bytes) {
        return Err(JournalFault::NoStudy);
    }
    if !has_header(bytes) {
        return Err(JournalFault::Damaged(0));
    }
    if bytes.len() <= study.prefix().len() {
        return Err(JournalFault::OtherPlan);
    }
    if !study.says_plan(bytes) {
        return Err(JournalFault::OtherPlan);
    }
    if !study.has_magic(bytes) {
        return Err(JournalFault::Damaged(0));
    }
    Ok(())
}

/// Whether bytes begin with a whole header, of whichever plan, and have the gate of a first slip.
#[tactic(auto, using(crate::proofs::Readings::header_judged, crate::proofs::Readings::text_none))]
fn has_header(bytes: &[u8]) -> bool
    ensures { result ≡ has_header bytes.now }
{
    match whole_length(bytes) {
        Some(text) => { digest_of(&bytes[1..text + 13]).as_slice() == &bytes[text + 13..text + 45] }
        None => false,
    }
}

/// The length of the text in a header, if the header can be whole.
#[tactic(auto, using(crate::proofs::Readings::text_found, crate::proofs::Readings::text_short))]
fn whole_length(bytes: &[u8]) -> Option<usize>
    ensures value { result ≡ (if can_have_header bytes.now then Some (text_length bytes.now) else None) }
    ensures room { IfSome result (λ text. text + 46 ≤ length bytes.now) }
{
    if bytes.len() < 13 {
        return None;
    }
    let mut letters = [0; 8];
    letters.copy_from_slice(&bytes[1..9]);
    let mut digits = [0; 4];
    digits.copy_from_slice(&bytes[9..13]);
    match layout::text_length(letters, digits, bytes.len() as u64) {
        Some(text) => Some(text as usize),
        None => None,
    }
}

/// The length that a header gives of the text of its plan.
pub(crate) fn length_in_header(header: &[u8]) -> usize
    requires { 13 ≤ length header.now }
    ensures { result ≡ text_length header.now }
{
    let mut digits = [0; 4];
    digits.copy_from_slice(&header[9..13]);
    u32::from_be_bytes(digits) as usize
}
