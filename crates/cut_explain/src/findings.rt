//! What there is to say of the text of a plan, in plain words: what is wrong with it, or how large its study is.
//!
//! [`list_findings`] reads a text in another way than the plan does, and says what is expected at each place.
//! [`describe_plan`] says what a plan has. What they write is help: no clause says it, and tests compare it whole.

mod findings;
mod joint_findings;
mod plan_facts;
mod repeated_keys;
mod rules;
mod shown;
mod syntax;
mod text_findings;
mod unknown_fields;

pub use plan_facts::describe_plan;
pub use rules::FieldRule;
pub use text_findings::list_findings;
