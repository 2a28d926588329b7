//! The checks on the fields of a plan's JSON object.
ghost use Rattle.std.specs.Prelude.{◌≡◌, ◌&&◌, not, true, nat_lt, unwrap_or, Ok};
ghost use Rattle.std.specs.List.{list_all, find};
ghost use Rattle.cut_plan.specs.declared.limits.TheConstants.{MOST_RINGS};
ghost use Rattle.serde_json.specs.View.{view};
ghost use Rattle.cut_fields.specs.Fields.{fields_of, member_at, number_in};
ghost use Rattle.cut_fields.specs.Members.{text_at};
ghost use Rattle.cut_plan.specs.Accepted.{is_in_scale, field_check};
ghost use Rattle.cut_fields.specs.Members.{is_present, is_of_kind};
ghost use Rattle.cut_plan.specs.inside.Accepted.{has_some, is_in_range, rises_at};
ghost use Rattle.cut_fields.specs.Members.{version_in};
ghost use Rattle.cut_plan.specs.inside.Accepted.{checks_by, failing_by, IsChecked};
ghost use Rattle.cut_plan.specs.Words.{dead_of, faults_of};
ghost use Rattle.hex.specs.Hex.{decode_sized};
ghost use Rattle.cut_fields.specs.declared.field.Field.TheVariants as field;
ghost use Rattle.cut_plan.specs.declared.dead.Dead.TheVariants.{Silent};
ghost use Rattle.cut_plan.specs.declared.faults.Faults.TheVariants.{Crash};
ghost use Rattle.cut_plan.specs.Plan.{is_within, is_rising};
ghost use Rattle.cut_fields.specs.Members.{item_numbers};

use crate::limits::{MOST_COPIES, MOST_NODES, MOST_REPEATS, MOST_RINGS};
use crate::{Dead, Failing, Faults, Field, Refusal, Version};
use cut_fields::{
    fields_of, has_only_fields, is_of_kind, is_present, item_number, items_at, number_at,
    number_in, text_at, version_in,
};
use hex::FromHex;
use serde_json::Value;

/// Checks that the value is an object, and then its fields by those of its version. It takes no memory.
#[tactic(auto, unfolding(crate::specs::Accepted::field_check, crate::specs::inside::Accepted::checks_by))]
pub(crate) fn check(value: &Value) -> Result<(), Refusal>
    ensures { result ≡ field_check (view value.now) }
{
    if !value.is_object() {
        return Err(Refusal::NotObject);
    }
    check_by(version_in(value), value)
}

/// Checks the fields of a version in turn: that the object has exactly these, then the kind of each, the range of each,
/// and that each list is ascending.
#[tactic(auto, unfolding(crate::specs::inside::Accepted::checks_by))]
fn check_by(version: Version, value: &Value) -> Result<(), Refusal>
    ensures { result ≡ checks_by version (view value.now) }
{
    if !has_only_fields(version, value) {
        return Err(Refusal::UnknownField);
    }
    if let Some(field) = first_missing(version, value) {
        return Err(Refusal::MissingField(field));
    }
    if let Some(field) = first_of_wrong_kind(version, value) {
        return Err(Refusal::WrongKind(field));
    }
    if let Some(field) = first_out_of_range(version, value) {
        return Err(Refusal::OutOfRange(field));
    }
    if let Some(field) = first_not_rising(version, value) {
        return Err(Refusal::NotRising(field));
    }
    Ok(())
}

/// The first field of a version that the object lacks.
fn first_missing(version: Version, value: &Value) -> Option<Field>
    ensures { result ≡ find (λ field. not (is_present (view value.now) field)) (fields_of version) }
{
    let fields = fields_of(version);
    fields
        .iter()
        .copied()
        .find(|field| !is_present(value, *field))
}

/// The first field of a version whose value has the wrong kind.
fn first_of_wrong_kind(version: Version, value: &Value) -> Option<Field>
    ensures { result ≡ find (λ field. not (is_of_kind (view value.now) field)) (fields_of version) }
{
    let fields = fields_of(version);
    fields
        .iter()
        .copied()
        .find(|field| !is_of_kind(value, *field))
}

/// The first field of a version whose value is out of its range.
fn first_out_of_range(version: Version, value: &Value) -> Option<Field>
    ensures { result ≡ find (λ field. not (is_in_range (view value.now) field)) (fields_of version) }
{
    let fields = fields_of(version);
    fields
        .iter()
        .copied()
        .find(|field| !is_in_range(value, *field))
}

/// The first field of a version whose list is not ascending.
fn first_not_rising(version: Version, value: &Value) -> Option<Field>
    ensures { result ≡ find (λ field. not (rises_at (view value.now) field)) (fields_of version) }
{
    let fields = fields_of(version);
    fields
        .iter()
        .copied()
        .find(|field| !rises_at(value, *field))
}

/// Whether a field's value, which is of the field's kind, is in the field's range.
fn is_in_range(value: &Value, field: Field) -> bool
    ensures { result ≡ is_in_range (view value.now) field }
{
    match field {
        Field::Copies => is_within(1, MOST_COPIES, number_at(value, field)),
        Field::Dead => Dead::of_word(text_at(value, field)).is_some(),
        Field::Deaf => is_within(0, MOST_NODES, number_at(value, field)),
        Field::F => are_below(items_at(value, field), number_at(value, Field::Nodes)),
        Field::Faults => Faults::of_word(text_at(value, field)).is_some(),
        Field::H | Field::K | Field::L => are_in_scale(items_at(value, field)),
        Field::Implicit => true,
        Field::Liars | Field::Links => is_within(0, MOST_NODES, number_at(value, field)),
        Field::Nodes => is_within(2, MOST_NODES, number_at(value, field)),
        Field::Repeats => is_within(1, MOST_REPEATS, number_at(value, field)),
        Field::Seed => <[u8; 32] as FromHex>::from_hex(text_at(value, field)).is_ok(),
        Field::Version => is_within(1, 2, number_at(value, field)),
    }
}

/// Whether a field's list is strictly ascending.
fn rises_at(value: &Value, field: Field) -> bool
    ensures { result ≡ rises_at (view value.now) field }
{
    are_rising(items_at(value, field))
}

/// Whether a number is at least `low` and at most `high`.
fn is_within(low: u64, high: u64, number: u64) -> bool
    ensures { result ≡ is_within low high number }
{
    low <= number && number <= high
}

/// Whether the list is not empty and each number is below `bound`.
fn are_below(items: &[Value], bound: u64) -> bool
    ensures { result ≡ (has_some (item_numbers items.now) && list_all (λ x. nat_lt x bound) (item_numbers items.now)) }
{
    !items.is_empty() && all_below(items, bound)
}

/// Whether each number is below `bound`.
fn all_below(items: &[Value], bound: u64) -> bool
    ensures { result ≡ list_all (λ v. nat_lt (number_in (view v)) bound) items.now }
{
    items.iter().all(|item| number_in(item) < bound)
}

/// Whether the list is not empty and each number is 1 to 32.
fn are_in_scale(items: &[Value]) -> bool
    ensures { result ≡ is_in_scale (item_numbers items.now) }
{
    !items.is_empty() && all_in_scale(items)
}

/// Whether each number is 1 to 32.
fn all_in_scale(items: &[Value]) -> bool
    ensures { result ≡ list_all (λ v. is_within 1 MOST_RINGS (number_in (view v))) items.now }
{
    items
        .iter()
        .all(|item| is_within(1, MOST_RINGS, number_in(item)))
}

/// Whether each number is below the next.
fn are_rising(items: &[Value]) -> bool
    ensures { result ≡ is_rising (item_numbers items.now) }
{
    for i in 1..items.len() {
        if item_number(items, i - 1) >= item_number(items, i) {
            return false;
        }
    }
    true
}

/// The rule on crashed observers that an object names.
pub(crate) fn dead_at(value: &Value) -> Dead
    ensures { result ≡ unwrap_or (dead_of (text_at (view value.now) field.Dead)) Silent }
{
    Dead::of_word(text_at(value, Field::Dead)).unwrap_or(Dead::Silent)
}

/// How targets fail by an object whose fields were checked.
pub(crate) fn failing_at(value: &Value) -> Failing
    requires { IsChecked (view value.now) }
    ensures { result ≡ failing_by (version_in (view value.now)) (member_at (view value.now)) }
{
    match version_in(value) {
        Version::One => Failing::Alike(faults_at(value)),
        Version::Two => Failing::Mixed(number_at(value, Field::Deaf) as u16),
    }
}

/// The way in which targets fail that an object names.
fn faults_at(value: &Value) -> Faults
    ensures { result ≡ unwrap_or (faults_of (text_at (view value.now) field.Faults)) Crash }
{
    Faults::of_word(text_at(value, Field::Faults)).unwrap_or(Faults::Crash)
}

/// The bytes of an object's seed, which was checked.
pub(crate) fn seed_at(value: &Value) -> [u8; 32]
    requires { is_in_range (view value.now) field.Seed ≡ true }
    ensures { decode_sized (text_at (view value.now) field.Seed) 32 ≡ Ok result }
{
    <[u8; 32] as FromHex>::from_hex(text_at(value, Field::Seed)).unwrap_or([0; 32])
}
