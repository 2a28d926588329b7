ghost use Rattle.std.specs.Prelude.{◌≡◌, ◌≤◌, Some, length};
ghost use Rattle.cut_fields.specs.Fields.{name_of, kind_of, fields_of};

use crate::{Kind, Version};
use std::fmt;

/// A field of a plan's JSON object. The variants stand in byte order of the fields' names. A plan of
/// version 1 has all but `deaf`, and one of version 2 all but `faults`.
#[derive(Clone, Copy, Debug, PartialEq, Eq)]
pub enum Field {
    Copies,
    Dead,
    Deaf,
    F,
    Faults,
    H,
    Implicit,
    K,
    L,
    Liars,
    Links,
    Nodes,
    Repeats,
    Seed,
    Version,
}

impl Field {
    /// The field's name in the JSON object: at most 8 bytes.
    pub fn name(self) -> &'static str
        ensures name { result.now ≡ name_of self }
        ensures short { length result.now ≤ 8 }
    {
        match self {
            Field::Copies => "copies",
            Field::Dead => "dead",
            Field::Deaf => "deaf",
            Field::F => "f",
            Field::Faults => "faults",
            Field::H => "h",
            Field::Implicit => "implicit",
            Field::K => "k",
            Field::L => "l",
            Field::Liars => "liars",
            Field::Links => "links",
            Field::Nodes => "nodes",
            Field::Repeats => "repeats",
            Field::Seed => "seed",
            Field::Version => "version",
        }
    }

    /// The kind of the field's value.
    pub fn kind(self) -> Kind
        ensures { result ≡ kind_of self }
    {
        match self {
            Field::Copies
            | Field::Deaf
            | Field::Liars
            | Field::Links
            | Field::Nodes
            | Field::Repeats
            | Field::Version => Kind::Number,
            Field::F | Field::H | Field::K | Field::L => Kind::Numbers,
            Field::Dead | Field::Faults | Field::Seed => Kind::Text,
            Field::Implicit => Kind::Truth,
        }
    }
}

impl fmt::Display for Field {
    ghost output = { λ field. Some (name_of field) };

    fn fmt<W: fmt::Write>(&self, f: &mut fmt::Formatter<W>) -> fmt::Result {
        f.write_str(self.name())
    }
}

/// Every field of a version, in byte order of the names.
#[tactic(auto, unfolding(crate::specs::Fields::fields_of))]
pub fn fields_of(version: Version) -> [Field; 14]
    ensures { result ≡ fields_of version }
{
    match version {
        Version::One => [
            Field::Copies,
            Field::Dead,
            Field::F,
            Field::Faults,
            Field::H,
            Field::Implicit,
            Field::K,
            Field::L,
            Field::Liars,
            Field::Links,
            Field::Nodes,
            Field::Repeats,
            Field::Seed,
            Field::Version,
        ],
        Version::Two => [
            Field::Copies,
            Field::Dead,
            Field::Deaf,
            Field::F,
            Field::H,
            Field::Implicit,
            Field::K,
            Field::L,
            Field::Liars,
            Field::Links,
            Field::Nodes,
            Field::Repeats,
            Field::Seed,
            Field::Version,
        ],
    }
}
