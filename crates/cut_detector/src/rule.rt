ghost use Rattle.std.specs.Prelude.{◌≡◌, ◌≤◌, nat_le};

/// The parameters of cut detection: K rings, the high watermark H, the low watermark L, and whether
/// implicit alerts are added.
#[derive(Clone, Copy, Debug)]
pub struct Rule {
    pub k: u8,
    pub h: u8,
    pub l: u8,
    pub implicit: bool,
    ghost low: { 1 ≤ l },
    ghost thresholds: { l ≤ h },
    ghost high: { h ≤ k },
    ghost few: { k ≤ 32 },
}

impl Rule {
    /// Whether a process with this many rings is stable or unstable.
    pub fn is_reported(self, rings: u32) -> bool
        ensures { result ≡ nat_le self.l rings }
    {
        u32::from(self.l) <= rings
    }

    /// Whether a process for which this many rings count is stable.
    pub fn is_stable(self, rings: u32) -> bool
        ensures { result ≡ nat_le self.h rings }
    {
        u32::from(self.h) <= rings
    }
}
