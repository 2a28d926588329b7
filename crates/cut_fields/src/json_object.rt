//! Access to the JSON value of a plan. A value of the wrong kind is treated as missing.
ghost use Rattle.std.specs.Prelude.{◌≡◌, ◌<◌, length, slice_index, map, is_some, string_bytes};
ghost use Rattle.std.specs.List.{list_all};
ghost use Rattle.std.specs.BTreeMap.{keys as keys_of};
ghost use Rattle.serde_json.specs.View.{view};
ghost use Rattle.cut_fields.specs.Fields.{whole_number, elements, is_of, member_at, number_in};
ghost use Rattle.cut_fields.specs.Members.{keys, truth_in, number_at, numbers_at, text_at, is_named};
ghost use Rattle.cut_fields.specs.Members.{is_present, is_of_kind, version_in};
ghost use Rattle.cut_fields.specs.Members.{item_numbers};

use crate::{Field, Kind, Version, fields_of};
use serde_json::{Map, Value};

/// Whether the object has the field.
pub fn is_present(value: &Value, field: Field) -> bool
    ensures { result ≡ is_present (view value.now) field }
{
    value.get(field.name()).is_some()
}

/// Whether the field's value is of the field's kind.
pub fn is_of_kind(value: &Value, field: Field) -> bool
    ensures { result ≡ is_of_kind (view value.now) field }
{
    match value.get(field.name()) {
        Some(member) => is_of(field.kind(), member),
        None => false,
    }
}

/// Whether a value is of a kind.
fn is_of(kind: Kind, value: &Value) -> bool
    ensures { result ≡ is_of kind (view value.now) }
{
    match kind {
        Kind::Number => value.is_u64(),
        Kind::Numbers => value.is_array() && are_numbers(elements(value)),
        Kind::Text => value.is_string(),
        Kind::Truth => value.is_boolean(),
    }
}

/// Whether each value is a whole number.
fn are_numbers(items: &[Value]) -> bool
    ensures { result ≡ list_all (λ v. is_some (whole_number (view v))) items.now }
{
    items.iter().all(|item| item.is_u64())
}

/// The items of an array, none of any other value.
fn elements(value: &Value) -> &[Value]
    ensures { map view result.now ≡ elements (view value.now) }
{
    match value.as_array() {
        Some(items) => items.as_slice(),
        None => &[],
    }
}

/// The number in a value, 0 if it has another kind.
pub fn number_in(value: &Value) -> u64
    ensures { result ≡ number_in (view value.now) }
{
    value.as_u64().unwrap_or(0)
}

/// The number in a field.
pub fn number_at(value: &Value, field: Field) -> u64
    ensures { result ≡ number_at (view value.now) field }
{
    match value.get(field.name()) {
        Some(member) => number_in(member),
        None => 0,
    }
}

/// The items of a field's array.
pub fn items_at(value: &Value, field: Field) -> &[Value]
    ensures { item_numbers result.now ≡ numbers_at (view value.now) field }
{
    match value.get(field.name()) {
        Some(member) => elements(member),
        None => &[],
    }
}

/// The number in a list at a place.
pub fn item_number(items: &[Value], i: usize) -> u64
    requires { i < length items.now }
    ensures { result ≡ slice_index (item_numbers items.now) i }
{
    number_in(&items[i])
}

/// The truth value in a field, false if it has another kind.
pub fn truth_at(value: &Value, field: Field) -> bool
    ensures { result ≡ truth_in (member_at (view value.now) field) }
{
    value
        .get(field.name())
        .and_then(Value::as_bool)
        .unwrap_or(false)
}

/// The text in a field.
pub fn text_at(value: &Value, field: Field) -> &str
    ensures { result.now ≡ text_at (view value.now) field }
{
    value
        .get(field.name())
        .and_then(Value::as_str)
        .unwrap_or("")
}

/// The version by whose fields an object is checked: 2 if its `version` is the whole number 2, else 1.
pub fn version_in(value: &Value) -> Version
    ensures { result ≡ version_in (view value.now) }
{
    Version::by_number(number_at(value, Field::Version))
}

/// Whether a text is the name of a field of a version.
fn is_named(version: Version, name: &str) -> bool
    ensures { result ≡ is_named version name.now }
{
    let fields = fields_of(version);
    fields.iter().any(|field| field.name() == name)
}

/// Whether each of these keys is the name of a field of a version.
fn are_named(version: Version, members: &Map<String, Value>) -> bool
    ensures { result ≡ list_all (λ key. is_named version (string_bytes key)) (keys_of members.now) }
{
    members.keys().all(|key| is_named(version, key.as_str()))
}

/// Whether each of the object's keys is the name of a field of a version.
pub fn has_only_fields(version: Version, value: &Value) -> bool
    ensures { result ≡ list_all (is_named version) (keys (view value.now)) }
{
    match value.as_object() {
        Some(members) => are_named(version, members),
        None => true,
    }
}
