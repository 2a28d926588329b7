//! The fields of a study plan's JSON object: which each version has, and what is found in them.
//!
//! Which values a field may have is defined in `cut_plan`, whose plans are read from objects that have exactly the
//! fields of their version.
#![tactic(auto)]

mod field;
mod json_object;
mod kind;
mod number_lists;
mod version;

pub use field::{Field, fields_of};
pub use json_object::{
    has_only_fields, is_of_kind, is_present, item_number, items_at, number_at, number_in, text_at,
    truth_at, version_in,
};
pub use kind::Kind;
pub use number_lists::{bytes_value, shorts_value};
pub use version::Version;
