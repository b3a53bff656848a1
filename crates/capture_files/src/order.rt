//! Byte orders.

/// The byte order of the machine that wrote a file.
#[derive(Clone, Copy, Debug, PartialEq, Eq)]
pub(crate) enum Order {
    /// The highest byte of a number first.
    Big,
    /// The lowest byte of a number first.
    Little,
}
