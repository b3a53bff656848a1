//! Numbers as decimal text.

ghost use Rattle.std.specs.Prelude.{Some, decimal};

use itoa::Buffer;
use std::fmt;

/// A number below 2^64 as it is printed. Its `Display` is decimal, without leading zeros.
#[derive(Clone, Copy, Debug, PartialEq, Eq)]
pub struct Decimal(pub u64);

impl fmt::Display for Decimal {
    ghost output = { λ number. Some (decimal number.0) };

    fn fmt<W: fmt::Write>(&self, f: &mut fmt::Formatter<W>) -> fmt::Result {
        let mut buffer = Buffer::new();
        f.write_str(buffer.format(self.0))
    }
}
