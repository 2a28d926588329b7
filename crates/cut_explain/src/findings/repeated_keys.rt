//! Keys that occur more than once in the text of a plan.

use crate::findings::rules::{FIELDS, field_named};
use cut_plan::Field;
use json::{Reader, Scratch, Token};
use std::alloc::{AllocError, Global};

/// Lists the fields that occur more than once in a JSON text.
pub(crate) fn list_repeated(alloc: Global, out: &mut String, text: &str) -> Result<(), AllocError> {
    let fields = fields_in(alloc, text)?;
    for field in FIELDS {
        let count = fields.iter().filter(|it| **it == field).count();
        if count > 1 {
            writeln!(
                out,
                "{field}: stands {count} times in the text; the last one counts"
            )?;
        }
    }
    Ok(())
}

/// The fields that an object has by its text, one after another.
fn fields_in(alloc: Global, text: &str) -> Result<Vec<Field>, AllocError> {
    let mut fields = Vec::new(alloc);
    let mut scratch = Scratch::new(alloc);
    let mut reader = Reader::new(text, &mut scratch)?;
    let mut depth = 0u32;
    while let Some(token) = reader.next() {
        depth = depth_after(depth, &token);
        if let Token::Key(key) = token
            && depth == 1
            && let Some(field) = field_named(key)
        {
            fields.push(field)?;
        }
    }
    Ok(fields)
}

/// How many objects and arrays are open after a token.
fn depth_after(depth: u32, token: &Token<'_>) -> u32 {
    match token {
        Token::BeginObject | Token::BeginArray => depth.saturating_add(1),
        Token::EndObject | Token::EndArray => depth.saturating_sub(1),
        _ => depth,
    }
}
