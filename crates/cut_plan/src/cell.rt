/// One combination of a plan's parameters: how many rings, the two thresholds, and how many
/// processes fail. Its names are those of the Rapid paper's sensitivity study.
#[derive(Clone, Copy, Debug, PartialEq, Eq)]
pub struct Cell {
    /// The number of observer rings, 1 to 32.
    pub k: u8,
    /// The high watermark: a process with at least this many reported rings is stable.
    pub h: u8,
    /// The low watermark: a process with fewer reported rings than this is noise.
    pub l: u8,
    /// How many processes fail.
    pub f: u16,
}
