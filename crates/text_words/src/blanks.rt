//! The bytes between words.

ghost use Rattle.std.specs.Prelude.{◌≡◌};
ghost use Rattle.text_words.specs.Words.{is_blank};

/// Which bytes stand between words.
#[derive(Clone, Copy, Debug, PartialEq, Eq)]
pub enum Blanks {
    /// Spaces, tabs and carriage returns: between the words of one line.
    InLine,
    /// These and line feeds: between the words of a text of several lines.
    InText,
}

impl Blanks {
    /// Whether a byte is one of these.
    pub fn contains(self, byte: u8) -> bool
        ensures { result ≡ is_blank self byte }
    {
        match self {
            Blanks::InLine => matches!(byte, b' ' | b'\t' | b'\r'),
            Blanks::InText => matches!(byte, b' ' | b'\t' | b'\n' | b'\r'),
        }
    }
}
