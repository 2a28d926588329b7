ghost use Rattle.std.specs.Prelude.{◌≡◌, ◌≤◌, ◌+◌, ◌&&◌, nat_le, if◌then◌else◌, Some, None, IfSome};
ghost use Rattle.std.specs.Int.{w32, from_be_bytes};
ghost use Rattle.cut_plan.specs.declared.limits.TheConstants.{LONGEST_TEXT};
ghost use Rattle.cut_journal.specs.File.{magic_of, numbers_length, slip_length};
ghost use Rattle.cut_journal.specs.Reading.{is_magic};

use cut_plan::{LONGEST_TEXT, Version};

/// The letters that a header begins with.
pub(crate) fn magic_of(version: Version) -> [u8; 8]
    ensures { result ≡ magic_of version }
{
    match version {
        Version::One => *b"CUTLAB01",
        Version::Two => *b"CUTLAB02",
    }
}

/// Whether a header of either version begins with these letters.
pub(crate) fn is_magic(letters: [u8; 8]) -> bool
    ensures { result ≡ is_magic letters }
{
    letters == magic_of(Version::One) || letters == magic_of(Version::Two)
}

/// The length of the text in a header that begins with these letters, and has these digits of the length, if a file of
/// this many bytes can have the whole of it, and the gate of a first slip.
pub(crate) fn text_length(letters: [u8; 8], digits: [u8; 4], size: u64) -> Option<u32>
    ensures value { result ≡ (if is_magic letters && nat_le (from_be_bytes w32 digits) LONGEST_TEXT
        && nat_le (from_be_bytes w32 digits + 46) size then Some (from_be_bytes w32 digits) else None) }
    ensures short { IfSome result (λ text. text ≤ LONGEST_TEXT) }
    ensures room { IfSome result (λ text. text + 46 ≤ size) }
{
    let text = u32::from_be_bytes(digits);
    let is_ours = is_magic(letters);
    if !is_ours {
        return None;
    }
    if text as usize > LONGEST_TEXT {
        return None;
    }
    if size < u64::from(text) + 46 {
        return None;
    }
    Some(text)
}

/// How many bytes the numbers of a slip take.
pub(crate) fn numbers_length(version: Version) -> usize
    ensures value { result ≡ numbers_length version }
    ensures least { 72 ≤ result }
    ensures most { result ≤ 80 }
{
    match version {
        Version::One => 72,
        Version::Two => 80,
    }
}

/// How many bytes a slip has with its gate: its numbers have a digest.
pub(crate) fn slip_length(version: Version) -> u64
    ensures value { result ≡ slip_length version }
    ensures least { 105 ≤ result }
    ensures most { result ≤ 113 }
{
    numbers_length(version) as u64 + 33
}
