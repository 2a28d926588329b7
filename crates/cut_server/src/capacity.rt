ghost use Rattle.std.specs.Prelude.{◌≤◌};

/// How many of each a server has.
#[derive(Clone, Copy, Debug, PartialEq, Eq)]
pub struct Capacity {
    /// How many threads work on its studies, from 1 to 64.
    pub workers: u32,
    /// How many connections it takes, from 1 to 64.
    pub sessions: u32,
    /// For how many studies it has room, from 1 to 64.
    pub studies: u32,
    ghost workers_are: { (1 ≤ workers) × (workers ≤ 64) },
    ghost sessions_are: { (1 ≤ sessions) × (sessions ≤ 64) },
    ghost studies_are: { (1 ≤ studies) × (studies ≤ 64) },
}
