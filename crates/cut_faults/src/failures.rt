ghost use Rattle.std.specs.Prelude.{◌≡◌};
ghost use Rattle.cut_faults.specs.Failures.{one_more};

use std::marker::Model;

/// The number of failed calls of a device. It stays at 2^64 - 1 once it is there. Contracts see the number.
#[derive(Debug, Drop)]
pub struct Failures {
    count: u64,
}

impl Model for Failures {
    ghost use Rattle.std.specs.Prelude.{ℕ};

    ghost Value = { ℕ };

    ghost view = { λ f. f.count };
}

impl Failures {
    /// No call has failed yet.
    pub fn none() -> Failures
        ensures { result ≡ 0 }
    {
        Failures { count: 0 }
    }

    /// How many calls failed.
    pub fn count(&self) -> u64
        ensures { result ≡ self.now }
    {
        self.count
    }

    /// Counts one more call that failed.
    pub fn add(&mut self)
        ensures { self.new ≡ one_more self.old }
    {
        self.count = self.count.saturating_add(1);
    }
}
