//! What is wrong with the fields of a plan, each taken alone.

use crate::findings::rules::{FIELDS, FieldRule, is_field_of};
use crate::findings::shown::Shown;
use cut_plan::{Field, Version};
use serde_json::Value;
use std::alloc::AllocError;
use std::fmt;

/// How many digits a seed has.
const SEED_DIGITS: usize = 64;

/// What is wrong with a field. Places are counted from 1.
#[derive(Clone, Copy)]
pub(crate) enum Finding<'a> {
    /// The field is missing.
    Missing,
    /// The field has this value.
    Found(&'a Value),
    /// The list has this value, the first of `wrong` wrong ones.
    Element {
        place: usize,
        count: usize,
        value: &'a Value,
        wrong: usize,
    },
    /// The list has this number after one that is not less.
    Fall {
        place: usize,
        number: u64,
        before: u64,
    },
    /// The seed has this number of characters.
    Length(usize),
    /// A character of the seed is not a digit.
    Character(usize),
}

impl fmt::Display for Finding<'_> {
    fn fmt<W: fmt::Write>(&self, f: &mut fmt::Formatter<W>) -> fmt::Result {
        match *self {
            Finding::Missing => f.write_str("missing"),
            Finding::Found(value) => {
                let shown = Shown(value);
                write!(f, "found {shown}")
            }
            Finding::Element {
                place,
                count,
                value,
                wrong,
            } => {
                let shown = Shown(value);
                write!(f, "element {place} of {count} is {shown}")?;
                if wrong > 1 {
                    write!(f, ", the first of {wrong} wrong ones")?;
                }
                Ok(())
            }
            Finding::Fall {
                place,
                number,
                before,
            } => write!(f, "element {place} is {number}, after {before}"),
            Finding::Length(count) => write!(f, "found a text of {count} characters"),
            Finding::Character(place) => write!(f, "character {place} is no such digit"),
        }
    }
}

/// Lists what is wrong with each field of a version.
pub(crate) fn list_fields(
    out: &mut String,
    value: &Value,
    version: Version,
) -> Result<(), AllocError> {
    for field in FIELDS {
        if is_field_of(version, field) {
            list_field(out, value, field)?;
        }
    }
    Ok(())
}

/// Lists what is wrong with a field.
fn list_field(out: &mut String, value: &Value, field: Field) -> Result<(), AllocError> {
    let rule = rule_in(value, field);
    let Some(member) = value.get(field.name()) else {
        return push_finding(out, field, rule, Finding::Missing);
    };
    if let Some(finding) = finding_in(rule, member) {
        push_finding(out, field, rule, finding)?;
    }
    if let Some(finding) = fall_in(rule, member) {
        push_finding(out, field, rule, finding)?;
    }
    Ok(())
}

/// Appends the line of a finding.
fn push_finding(
    out: &mut String,
    field: Field,
    rule: FieldRule,
    finding: Finding<'_>,
) -> Result<(), AllocError> {
    writeln!(out, "{field}: {finding}; expected {rule}")
}

/// The value of a field in which nothing is wrong.
pub(crate) fn sound_value(value: &Value, field: Field) -> Option<&Value> {
    let rule = rule_in(value, field);
    let member = value.get(field.name())?;
    if finding_in(rule, member).is_some() || fall_in(rule, member).is_some() {
        return None;
    }
    Some(member)
}

/// The rule of a field of this object.
fn rule_in(value: &Value, field: Field) -> FieldRule {
    FieldRule::of_field(
        field,
        value.get(Field::Nodes.name()).and_then(Value::as_u64),
    )
}

/// What is wrong with a value by a rule, except for the order of a list.
fn finding_in<'a>(rule: FieldRule, value: &'a Value) -> Option<Finding<'a>> {
    let is_right = match rule {
        FieldRule::Number { least, most } => value
            .as_u64()
            .is_some_and(|n| least <= n && n <= most),
        FieldRule::Word { first, second } => value
            .as_str()
            .is_some_and(|word| word == first || word == second),
        FieldRule::Truth => value.is_boolean(),
        FieldRule::Digits => return finding_in_seed(value),
        FieldRule::Rings => return finding_in_list(value, 1, 33),
        FieldRule::Failed { nodes } => return finding_in_list(value, 0, nodes.unwrap_or(u64::MAX)),
    };
    if is_right {
        None
    } else {
        Some(Finding::Found(value))
    }
}

/// What is wrong with a list whose numbers have to be in `least..end`, except for its order.
fn finding_in_list(value: &Value, least: u64, end: u64) -> Option<Finding<'_>> {
    let items = match value.as_array() {
        Some(items) => items.as_slice(),
        None => &[],
    };
    if items.is_empty() {
        return Some(Finding::Found(value));
    }
    let wrong = items
        .iter()
        .filter(|item| !is_within(*item, least, end))
        .count();
    for (index, item) in items.iter().enumerate() {
        if !is_within(item, least, end) {
            return Some(Finding::Element {
                place: index.saturating_add(1),
                count: items.len(),
                value: item,
                wrong,
            });
        }
    }
    None
}

/// Whether a value is a number in `least..end`.
fn is_within(value: &Value, least: u64, end: u64) -> bool {
    value.as_u64().is_some_and(|n| least <= n && n < end)
}

/// What is wrong with a seed.
fn finding_in_seed(value: &Value) -> Option<Finding<'_>> {
    let Some(text) = value.as_str() else {
        return Some(Finding::Found(value));
    };
    let count = text.chars().count();
    if count != SEED_DIGITS {
        return Some(Finding::Length(count));
    }
    let index = text.chars().position(|c| !c.is_ascii_hexdigit())?;
    Some(Finding::Character(index.saturating_add(1)))
}

/// The first place at which a list does not rise, if the rule asks for a list.
fn fall_in<'a>(rule: FieldRule, value: &'a Value) -> Option<Finding<'a>> {
    let items = value.as_array()?.as_slice();
    if !rule.is_of_list() {
        return None;
    }
    for index in 1..items.len() {
        let before = items.get(index - 1)?.as_u64()?;
        let number = items.get(index)?.as_u64()?;
        if number <= before {
            return Some(Finding::Fall {
                place: index.saturating_add(1),
                number,
                before,
            });
        }
    }
    None
}
