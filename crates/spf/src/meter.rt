//! How often trees were calculated.

ghost use Rattle.std.specs.Prelude.{◌≡◌, ℕ};
ghost use Rattle.spf.specs.Distances.{counted};

use std::marker::Model;

/// Counts the calculations of trees. It stays at its greatest value, 2^64 - 1.
#[derive(Debug, Drop)]
pub struct Meter {
    runs: u64,
}

impl Model for Meter {
    ghost use Rattle.std.specs.Prelude.{ℕ};

    ghost Value = { ℕ };

    ghost view = { λ m. m.runs };
}

impl Meter {
    /// A meter at 0.
    pub fn new() -> Meter
        ensures { result ≡ 0 }
    {
        Meter { runs: 0 }
    }

    /// How many calculations it has counted. It takes no memory.
    pub fn count(&self) -> u64
        ensures { result ≡ self.now }
    {
        self.runs
    }

    /// Counts one more.
    pub(crate) fn rise(&mut self)
        ensures { self.new ≡ counted self.old }
    {
        self.runs = self.runs.saturating_add(1);
    }
}
