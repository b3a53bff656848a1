//! In which form a study is answered.

/// In which form a study is answered.
#[derive(Clone, Copy, Debug, PartialEq, Eq)]
pub enum Format {
    /// Texts for people.
    Text,
    /// Documents for programs (RFC 8259), one a line.
    Json,
}
