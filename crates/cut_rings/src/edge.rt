ghost use Rattle.std.specs.Prelude.{◌≡◌, ◌<◌, ◌≤◌};
ghost use Rattle.cut_plan.specs.declared.limits.TheConstants.{MOST_NODES};
ghost use Rattle.cut_rings.specs.Edges.{edge_number};

/// An edge of the monitoring overlay: a subject, seen by its observer on one ring.
#[derive(Clone, Copy, Debug, PartialEq, Eq)]
pub struct Edge {
    /// The ring's number, from 0.
    pub ring: u8,
    /// The process that is observed on that ring.
    pub subject: u16,
}

impl Edge {
    /// The number of this edge among those of the first `k` rings, by which edges are ordered and
    /// tables of edges are indexed. The edges of n processes have the numbers 0 to n * k - 1 (this
    /// project's profile).
    pub fn number(self, k: u8) -> u16
        requires ring { self.ring < k }
        requires rings { k ≤ 32 }
        requires subject { self.subject < MOST_NODES }
        ensures { result ≡ edge_number k self }
    {
        self.subject * u16::from(k) + u16::from(self.ring)
    }
}
