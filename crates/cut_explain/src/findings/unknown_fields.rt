//! Keys that are not fields of a plan.

use crate::findings::rules::{FIELDS, field_named, is_field_of};
use crate::findings::shown::Quoted;
use cut_plan::{Field, Version};
use serde_json::{Map, Value};
use std::alloc::{AllocError, Global};
use strsim::osa_distance;

/// Lists the keys that are not fields of a version, each with the field that may be meant.
pub(crate) fn list_unknown(
    alloc: Global,
    out: &mut String,
    members: &Map<String, Value>,
    version: Version,
) -> Result<(), AllocError> {
    for key in members.keys() {
        match field_named(key.as_str()) {
            Some(field) => push_other_version(out, field, version)?,
            None => push_unknown(alloc, out, key.as_str(), version)?,
        }
    }
    Ok(())
}

/// Adds that a field is one of the other version, if it is.
fn push_other_version(out: &mut String, field: Field, version: Version) -> Result<(), AllocError> {
    if is_field_of(version, field) {
        return Ok(());
    }
    let number = version.number();
    let other = if number == 1 { 2 } else { 1 };
    writeln!(
        out,
        "{field}: a field of version {other}; this plan is read as version {number}"
    )
}

/// Adds that a key is not a field of either version, and the nearest field.
fn push_unknown(
    alloc: Global,
    out: &mut String,
    key: &str,
    version: Version,
) -> Result<(), AllocError> {
    let quoted = Quoted(key);
    write!(out, "{quoted}: no field of a plan")?;
    if let Some(field) = nearest(alloc, key, version)? {
        write!(out, "; did you mean {field}?")?;
    }
    writeln!(out)
}

/// The field of a version whose name is nearest to a key, in whatever case: there is at most one mistake for each three of
/// the name's letters, which is a letter that is wrong, left out, added, or exchanged with its neighbour.
fn nearest(alloc: Global, key: &str, version: Version) -> Result<Option<Field>, AllocError> {
    let key = key.to_ascii_lowercase(alloc)?;
    let mut least = usize::MAX;
    let mut found = None;
    for field in FIELDS {
        let steps = osa_distance(alloc, key.as_str(), field.name())?;
        let is_near = steps.saturating_mul(3) <= field.name().len();
        if is_near && steps < least && is_field_of(version, field) {
            least = steps;
            found = Some(field);
        }
    }
    Ok(found)
}
