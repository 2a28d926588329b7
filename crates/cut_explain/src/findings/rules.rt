//! What each field of a plan has to be.

use cut_plan::{Field, MOST_COPIES, MOST_NODES, MOST_REPEATS, Version};
use serde_json::Value;
use std::fmt;

/// Every field of either version, in byte order of the names.
pub(crate) const FIELDS: [Field; 15] = [
    Field::Copies,
    Field::Dead,
    Field::Deaf,
    Field::F,
    Field::Faults,
    Field::H,
    Field::Implicit,
    Field::K,
    Field::L,
    Field::Liars,
    Field::Links,
    Field::Nodes,
    Field::Repeats,
    Field::Seed,
    Field::Version,
];

/// The version by whose fields a JSON value is read: 2 if its `version` is 2, and else 1.
pub(crate) fn version_of(value: &Value) -> Version {
    match value.get(Field::Version.name()).and_then(Value::as_u64) {
        Some(2) => Version::Two,
        _ => Version::One,
    }
}

/// Whether plans of a version have a field.
pub(crate) fn is_field_of(version: Version, field: Field) -> bool {
    match field {
        Field::Faults => version == Version::One,
        Field::Deaf => version == Version::Two,
        _ => true,
    }
}

/// The field of this name, of either version.
pub(crate) fn field_named(name: &str) -> Option<Field> {
    let fields = FIELDS;
    fields.iter().copied().find(|field| field.name() == name)
}

/// What the value of a field has to be.
#[derive(Clone, Copy)]
pub enum FieldRule {
    /// A whole number of this range.
    Number {
        least: u64,
        most: u64,
    },
    /// A strictly ascending list of numbers of rings.
    Rings,
    /// A strictly ascending list of numbers of failed processes, each below the number of processes, if that is known.
    Failed {
        nodes: Option<u64>,
    },
    /// One of two words.
    Word {
        first: &'static str,
        second: &'static str,
    },
    /// A truth value.
    Truth,
    /// The digits of a seed.
    Digits,
}

impl FieldRule {
    /// The rule of a field, in a plan with this number of processes, if it is known.
    pub fn of_field(field: Field, nodes: Option<u64>) -> FieldRule {
        match field {
            Field::Copies => FieldRule::Number {
                least: 1,
                most: MOST_COPIES,
            },
            Field::Dead => FieldRule::Word {
                first: "silent",
                second: "speak",
            },
            Field::Faults => FieldRule::Word {
                first: "crash",
                second: "deaf",
            },
            Field::Deaf | Field::Liars | Field::Links => FieldRule::Number {
                least: 0,
                most: MOST_NODES,
            },
            Field::F => FieldRule::Failed { nodes },
            Field::H | Field::K | Field::L => FieldRule::Rings,
            Field::Implicit => FieldRule::Truth,
            Field::Nodes => FieldRule::Number {
                least: 2,
                most: MOST_NODES,
            },
            Field::Repeats => FieldRule::Number {
                least: 1,
                most: MOST_REPEATS,
            },
            Field::Seed => FieldRule::Digits,
            Field::Version => FieldRule::Number { least: 1, most: 2 },
        }
    }

    /// Whether it is the rule of a list.
    pub(crate) fn is_of_list(self) -> bool {
        matches!(self, FieldRule::Rings | FieldRule::Failed { .. })
    }
}

impl fmt::Display for FieldRule {
    fn fmt<W: fmt::Write>(&self, f: &mut fmt::Formatter<W>) -> fmt::Result {
        match *self {
            FieldRule::Number { least, most } => write!(f, "a whole number from {least} to {most}"),
            FieldRule::Rings => f.write_str("a strictly rising list of whole numbers from 1 to 32"),
            FieldRule::Failed { nodes: None } => {
                f.write_str("a strictly rising list of whole numbers below nodes")
            }
            FieldRule::Failed { nodes: Some(nodes) } => write!(
                f,
                "a strictly rising list of whole numbers below nodes, {nodes}"
            ),
            FieldRule::Word { first, second } => write!(f, "\"{first}\" or \"{second}\""),
            FieldRule::Truth => f.write_str("true or false"),
            FieldRule::Digits => f.write_str("a text of 64 hexadecimal digits"),
        }
    }
}
