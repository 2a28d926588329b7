/// What kind of JSON value a field has.
#[derive(Clone, Copy, Debug, PartialEq, Eq)]
pub enum Kind {
    /// A whole number.
    Number,
    /// A list of whole numbers.
    Numbers,
    /// A text.
    Text,
    /// A truth value.
    Truth,
}
