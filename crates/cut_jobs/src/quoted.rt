//! Characters as they stand between quotes, in a line.

ghost use Rattle.std.specs.Prelude.{◌≡◌, ◌<◌, ◌++◌, length};
ghost use Rattle.std.specs.Char.{digit_char};
ghost use Rattle.std.specs.Char.Escape.{escape_unicode};
ghost use Rattle.cut_jobs.specs.Quoted.{is_hidden, quoted_char};

use arrayvec::ArrayString;

/// A character as it stands between quotes.
pub(crate) fn quoted_char(c: char) -> ArrayString<8>
    ensures { result.bytes ≡ quoted_char c }
{
    let mut text = ArrayString::new();
    match c {
        '"' => text.push_str("\\\""),
        '\\' => text.push_str("\\\\"),
        '\0' => text.push_str("\\0"),
        '\t' => text.push_str("\\t"),
        '\n' => text.push_str("\\n"),
        '\r' => text.push_str("\\r"),
        _ => {
            if is_hidden(c as u32) {
                return code_of(c as u32);
            }
            text.push(c);
        }
    }
    text
}

/// Whether a character shows nothing of itself, or changes how the text around it is shown.
fn is_hidden(c: u32) -> bool
    ensures { result ≡ is_hidden c }
{
    c < 0x20
        || (c >= 0x7F && c <= 0x9F)
        || (c >= 0x200B && c <= 0x200F)
        || (c >= 0x2028 && c <= 0x202E)
        || (c >= 0x2066 && c <= 0x2069)
        || c == 0xFEFF
}

/// The code of a character, as no hidden one is past four digits.
fn code_of(c: u32) -> ArrayString<8>
    requires { c < 0x1_0000 }
    ensures { result.bytes ≡ escape_unicode c }
{
    let mut text = ArrayString::new();
    text.push_str("\\u{");
    if c >= 0x1000 {
        text.push(hex_digit(c / 0x1000 % 16));
    }
    if c >= 0x100 {
        text.push(hex_digit(c / 0x100 % 16));
    }
    if c >= 0x10 {
        text.push(hex_digit(c / 0x10 % 16));
    }
    text.push(hex_digit(c % 16));
    text.push('}');
    text
}

/// A hexadecimal digit of a code.
fn hex_digit(n: u32) -> char
    requires { n < 16 }
    ensures value { result ≡ digit_char n }
    ensures ascii { result < 128 }
{
    if n < 10 {
        return (b'0' + n as u8) as char;
    }
    (b'a' - 10 + n as u8) as char
}
