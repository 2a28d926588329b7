/// Numbers that follow one another: `count` of them, from `first` on.
#[derive(Clone, Copy, Debug, PartialEq, Eq)]
pub struct Span {
    /// The least of them.
    pub first: u32,
    /// How many they are.
    pub count: u32,
}
