//! The text that is read and written.

pub(super) const TEXT: &[u8] = b"cost 0.0.0.0 1.1.1.1 1 7\n";

/// A place past the end of every text of these tests.
pub(super) const NEVER: usize = 1_000_000;
