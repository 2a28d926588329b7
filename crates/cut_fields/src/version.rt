ghost use Rattle.std.specs.Prelude.{◌≡◌};
ghost use Rattle.cut_fields.specs.Versions.{version_number, version_by};

/// The version of a plan's format, which decides what fields a plan has.
#[derive(Clone, Copy, Debug, PartialEq, Eq)]
pub enum Version {
    /// All targets fail in one way.
    One,
    /// Some targets are deaf, and the others have crashed.
    Two,
}

impl Version {
    /// The number that stands for it in a plan.
    pub fn number(self) -> u64
        ensures { result ≡ version_number self }
    {
        match self {
            Version::One => 1,
            Version::Two => 2,
        }
    }

    /// The version by whose fields an object with this number is checked: version 2 if the number is 2, else version 1.
    pub(crate) fn by_number(number: u64) -> Version
        ensures { result ≡ version_by number }
    {
        match number {
            2 => Version::Two,
            _ => Version::One,
        }
    }
}
