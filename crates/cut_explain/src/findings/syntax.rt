//! Why a text is not JSON.

use serde_json::{Error, Value};
use std::alloc::{AllocError, Global};
use std::fmt;

/// What is found at the place where a text is not JSON.
#[derive(Clone, Copy)]
enum Mistake {
    Empty,
    Unclosed,
    OpenQuote,
    HugeNumber,
    AfterEnd,
    LastComma,
    NoValue,
    ExtraComma,
    NoComma,
    Comment,
    SingleQuote,
    BrokenText,
    LeadingZero,
    LeadingPoint,
    LeadingPlus,
    BadNumber,
    Word,
    ByteOrderMark,
    Other,
}

impl fmt::Display for Mistake {
    fn fmt<W: fmt::Write>(&self, f: &mut fmt::Formatter<W>) -> fmt::Result {
        f.write_str(match self {
            Mistake::Empty => "the text is empty",
            Mistake::Unclosed => "the text ends here, and a bracket is not closed",
            Mistake::OpenQuote => "the text ends inside the double quotes that begin here",
            Mistake::HugeNumber => "the number before this is too large",
            Mistake::AfterEnd => "the value ends before this, and nothing may follow it",
            Mistake::LastComma => "a closing bracket after a comma; JSON has none there",
            Mistake::NoValue => "a value is missing before this",
            Mistake::ExtraComma => "a comma; expected a key or a value",
            Mistake::NoComma => "a comma or a colon is missing before this",
            Mistake::Comment => "a comment; JSON has none",
            Mistake::SingleQuote => "a single quote; expected double quotes",
            Mistake::BrokenText => "a text that is not closed on its line, or has a wrong escape",
            Mistake::LeadingZero => "a number that begins with a needless zero",
            Mistake::LeadingPoint => "a number that begins with a point",
            Mistake::LeadingPlus => "a number that begins with a plus sign",
            Mistake::BadNumber => "a number that JSON does not have",
            Mistake::Word => "a word without double quotes; JSON has only true, false and null",
            Mistake::ByteOrderMark => "a byte order mark; expected the text to begin with a brace",
            Mistake::Other => "this is no JSON",
        })
    }
}

/// A place in a text, by its line and its column, each counted from 1. A column is a byte.
#[derive(Clone, Copy)]
struct Place {
    line: usize,
    column: usize,
}

impl Place {
    /// The place of a byte of a text.
    fn of_byte(text: &[u8], at: usize) -> Place {
        let before = text.get(..at).unwrap_or(text);
        let line = before.iter().filter(|byte| **byte == b'\n').count();
        let column = before
            .iter()
            .rev()
            .take_while(|byte| **byte != b'\n')
            .count();
        Place {
            line: line.saturating_add(1),
            column: column.saturating_add(1),
        }
    }

    /// The place of an error of the reader.
    fn of_error(error: &Error) -> Place {
        Place {
            line: error.line(),
            column: error.column(),
        }
    }

    /// How many bytes come before it in a text.
    fn offset_in(self, text: &[u8]) -> usize {
        let mut line = 1usize;
        for (start, byte) in text.iter().enumerate() {
            if line == self.line {
                return start.saturating_add(self.column).saturating_sub(1);
            }
            if *byte == b'\n' {
                line = line.saturating_add(1);
            }
        }
        text.len()
    }
}

impl fmt::Display for Place {
    fn fmt<W: fmt::Write>(&self, f: &mut fmt::Formatter<W>) -> fmt::Result {
        let Place { line, column } = *self;
        write!(f, "line {line}, column {column}")
    }
}

/// Says where a text is not UTF-8: after this number of bytes.
pub(crate) fn explain_bytes(out: &mut String, text: &[u8], at: usize) -> Result<(), AllocError> {
    let place = Place::of_byte(text, at);
    writeln!(out, "{place}: the byte here is no UTF-8")
}

/// Says where a text is not JSON, by the reader's error, and what is found there.
pub(crate) fn explain_syntax(
    alloc: Global,
    out: &mut String,
    text: &str,
    error: &Error,
) -> Result<(), AllocError> {
    let text = text.as_bytes();
    let (place, mistake) = if error.is_eof() {
        mistake_at_end(text, error)
    } else {
        (Place::of_error(error), mistake_by(alloc, text, error)?)
    };
    writeln!(out, "{place}: {mistake}")
}

/// What is found if a text ends too early, and where.
fn mistake_at_end(text: &[u8], error: &Error) -> (Place, Mistake) {
    let end = Place::of_byte(text, text.len());
    if text.iter().all(|byte| byte.is_ascii_whitespace()) {
        (end, Mistake::Empty)
    } else if ends_in_quotes(text) {
        (Place::of_error(error), Mistake::OpenQuote)
    } else {
        (end, Mistake::Unclosed)
    }
}

/// What is found at the place of an error.
fn mistake_by(alloc: Global, text: &[u8], error: &Error) -> Result<Mistake, AllocError> {
    let message = error.to_string(alloc)?;
    if message.as_str().starts_with("number out of range") {
        return Ok(Mistake::HugeNumber);
    }
    let at = Place::of_error(error).offset_in(text);
    match Value::from_slice(alloc, text.get(..at).unwrap_or(&[])) {
        Ok(_) => Ok(Mistake::AfterEnd),
        Err(error) => if error.is_memory() {
            Err(AllocError)
        } else {
            Ok(mistake_at(text, at))
        },
    }
}

/// What is found at a place of a text, by the byte there and the last one before it that is not blank.
fn mistake_at(text: &[u8], at: usize) -> Mistake {
    let before = byte_before(text, at);
    let first = text.get(at).copied().unwrap_or(0);
    let second = text.get(at.saturating_add(1)).copied().unwrap_or(0);
    match (first, second) {
        (b'}' | b']', _) if before == b',' => Mistake::LastComma,
        (b'}' | b']' | b',', _) if before == b':' => Mistake::NoValue,
        (b',', _) => Mistake::ExtraComma,
        (b'/', b'/' | b'*') | (b'#', _) => Mistake::Comment,
        (b'\'', _) => Mistake::SingleQuote,
        (b'"' | b'{' | b'[' | b'-' | b'0'..=b'9' | b'a'..=b'z' | b'A'..=b'Z', _)
            if ends_value(before) => { Mistake::NoComma }
        (b'"', _) => Mistake::BrokenText,
        (b'0', b'0'..=b'9') => Mistake::LeadingZero,
        (b'.', _) => Mistake::LeadingPoint,
        (b'+', _) => Mistake::LeadingPlus,
        (b'-' | b'0'..=b'9', _) => Mistake::BadNumber,
        (b'a'..=b'z' | b'A'..=b'Z' | b'_', _) => Mistake::Word,
        (0xEF, 0xBB) => Mistake::ByteOrderMark,
        _ => Mistake::Other,
    }
}

/// Whether a byte may end a value or a key.
fn ends_value(byte: u8) -> bool {
    matches!(byte, b'"' | b'}' | b']' | b'0'..=b'9' | b'a'..=b'z')
}

/// The last byte before a place that is not blank, 0 if there is none.
fn byte_before(text: &[u8], at: usize) -> u8 {
    let before = text.get(..at).unwrap_or(&[]);
    before
        .iter()
        .rev()
        .copied()
        .find(|byte| !byte.is_ascii_whitespace())
        .unwrap_or(0)
}

/// Whether a text ends inside double quotes.
fn ends_in_quotes(text: &[u8]) -> bool {
    let mut inside = false;
    let mut escaped = false;
    for byte in text {
        if *byte == b'"' && !escaped {
            inside = !inside;
        }
        escaped = inside && *byte == b'\\' && !escaped;
    }
    inside
}
