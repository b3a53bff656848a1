//! Metrics of 24 bits.

ghost use Rattle.std.specs.Prelude.{◌≡◌, ◌<◌, ◌^◌, Some, None, nat_lt, if◌then◌else◌};

use crate::decimal::Decimal;
use std::fmt;
use std::marker::Model;

/// LSInfinity, the greatest metric, which means that a destination is not reachable (RFC 2328, B).
pub const LS_INFINITY: u32 = 0xff_ffff;

/// A metric of 24 bits, 0 to 16,777,215, as summary-LSAs and AS-external-LSAs carry it (RFC 2328,
/// A.4.4 and A.4.5). Its greatest value is LSInfinity, which means that a destination is not
/// reachable (RFC 2328, B).
///
/// Its `Display` is decimal.
#[derive(Clone, Copy, Debug, PartialEq, Eq, PartialOrd, Ord, Hash)]
pub struct Metric {
    value: u32,
}

impl Model for Metric {
    ghost use Rattle.std.specs.Prelude.{ℕ, ◌<◌, ◌^◌};

    ghost Value = { ℕ };

    ghost view = { λ m. m.value };

    ghost invariant = { λ m. m.value < 2 ^ 24 };

    ghost inverse = { λ n. record { value = n } };
}

impl Metric {
    /// The metric of a value, and None where it is above 16,777,215.
    pub fn new(value: u32) -> Option<Metric>
        ensures { result ≡ (if nat_lt value (2 ^ 24) then Some value else None) }
    {
        if value < 1 << 24 {
            return Some(Metric { value });
        }
        None
    }

    /// The value, 0 to 16,777,215.
    pub fn value(self) -> u32
        ensures value { result ≡ self }
        ensures small { result < 2 ^ 24 }
    {
        self.value
    }
}

impl fmt::Display for Metric {
    ghost use Rattle.std.specs.Prelude.{Some, decimal};

    ghost output = { λ metric. Some (decimal metric) };

    fn fmt<W: fmt::Write>(&self, f: &mut fmt::Formatter<W>) -> fmt::Result {
        let value = Decimal(u64::from(self.value));
        write!(f, "{value}")
    }
}
