/// A run of numbers up to `end`: all of them are in a set, or none is.
#[derive(Clone, Copy, Debug)]
pub(crate) struct Run {
    pub held: bool,
    pub end: u32,
}
