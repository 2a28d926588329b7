//! What there is to say of a text that is read as a plan.

use crate::findings::findings::list_fields;
use crate::findings::joint_findings::list_joint;
use crate::findings::repeated_keys::list_repeated;
use crate::findings::rules::version_of;
use crate::findings::shown::Shown;
use crate::findings::syntax::{explain_bytes, explain_syntax};
use crate::findings::unknown_fields::list_unknown;
use cut_plan::LONGEST_TEXT;
use serde_json::Value;
use std::alloc::{AllocError, Global};
use std::str;

/// Lists what is wrong with a text as a plan, and the keys that occur more than once, a line for each. If the text is
/// too long, not UTF-8 or not JSON, only that is said.
pub fn list_findings(alloc: Global, out: &mut String, text: &[u8]) -> Result<(), AllocError> {
    if text.len() > LONGEST_TEXT {
        let length = text.len();
        return writeln!(
            out,
            "the text has {length} bytes; expected at most {LONGEST_TEXT}"
        );
    }
    match str::from_utf8(text) {
        Ok(text) => list_findings_of(alloc, out, text),
        Err(error) => explain_bytes(out, text, error.valid_up_to()),
    }
}

/// Lists what is wrong with a text, and the keys that stand in it more than once.
fn list_findings_of(alloc: Global, out: &mut String, text: &str) -> Result<(), AllocError> {
    match Value::from_str(alloc, text) {
        Ok(value) => {
            list_findings_in(alloc, out, &value)?;
            list_repeated(alloc, out, text)
        }
        Err(error) => if error.is_memory() {
            Err(AllocError)
        } else {
            explain_syntax(alloc, out, text, &error)
        },
    }
}

/// Lists what is wrong with a JSON value: first its keys, then its fields one by one, then its fields together.
fn list_findings_in(alloc: Global, out: &mut String, value: &Value) -> Result<(), AllocError> {
    let Some(members) = value.as_object() else {
        let shown = Shown(value);
        return writeln!(out, "found {shown}; expected an object, in braces");
    };
    let version = version_of(value);
    list_unknown(alloc, out, members, version)?;
    list_fields(out, value, version)?;
    list_joint(out, value)
}
