//! Parts of a text as they are printed within a line.

use serde_json::Value;
use std::fmt;

/// How many characters of a text are printed.
const SHOWN: usize = 40;

/// A JSON value as it is printed within a line.
#[derive(Clone, Copy)]
pub(crate) struct Shown<'a>(pub(crate) &'a Value);

impl fmt::Display for Shown<'_> {
    fn fmt<W: fmt::Write>(&self, f: &mut fmt::Formatter<W>) -> fmt::Result {
        match self.0 {
            Value::Null => f.write_str("null"),
            Value::Bool(true) => f.write_str("true"),
            Value::Bool(false) => f.write_str("false"),
            Value::Number(number) if number.is_f64() => {
                write!(f, "{number}, with a point, an exponent or too many digits")
            }
            Value::Number(number) => write!(f, "{number}"),
            Value::String(text) => {
                let quoted = Quoted(text.as_str());
                write!(f, "the text {quoted}")
            }
            Value::Array(items) if items.is_empty() => f.write_str("an empty list"),
            Value::Array(items) => {
                let count = items.len();
                write!(f, "a list of {count}")
            }
            Value::Object(_) => f.write_str("an object"),
        }
    }
}

/// A text as it is printed within a line: in double quotes, cut if it is long. Quotes, backslashes and all that is not
/// printable ASCII are escaped, so that no text looks like another or like the end of a line.
#[derive(Clone, Copy)]
pub(crate) struct Quoted<'a>(pub(crate) &'a str);

impl fmt::Display for Quoted<'_> {
    fn fmt<W: fmt::Write>(&self, f: &mut fmt::Formatter<W>) -> fmt::Result {
        f.write_char('"')?;
        for (place, character) in self.0.chars().enumerate() {
            if place == SHOWN {
                f.write_str("..")?;
                break;
            }
            for escaped in character.escape_default() {
                f.write_char(escaped)?;
            }
        }
        f.write_char('"')
    }
}
