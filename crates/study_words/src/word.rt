//! Kinds of words, and what is made of a table of their words.

/// The list of all words of a table.
macro_rules! list_of {
    ($kind:ident $($name:ident $text:literal)*) => { &[$($kind::$name),*] };
}

pub(crate) use list_of;

/// The text of a word in a table.
macro_rules! text_of {
    ($word:tt $kind:ident $($name:ident $text:literal)*) => {
        match $word {
            $($kind::$name => $text),*
        }
    };
}

pub(crate) use text_of;

/// A kind of words of the language: each value is written as one word.
pub trait Word: Copy + 'static {
    ghost use Rattle.std.specs.Prelude.{◌≡◌, ℕ, List, bytes_eq};
    ghost use Rattle.study_words.specs.Named.{named};

    /// All of the kind, in their order.
    ghost all: { List Self };

    /// How each is written.
    ghost spelled: { Self → List ℕ };

    /// All of the kind, in their order.
    fn all() -> &'static [Self]
        ensures { result.now ≡ all };

    /// The word as it is written.
    fn text(self) -> &'static str
        ensures { result.now ≡ spelled self };

    /// Whether a word is written so.
    final fn is_text(self, word: &[u8]) -> bool
        ensures { result ≡ bytes_eq word.now (spelled self) }
    {
        word == self.text().as_bytes()
    }

    /// The one that a word is, if it is one of the kind.
    final fn of(word: &[u8]) -> Option<Self>
        ensures { result ≡ named spelled all word.now }
    {
        for value in Self::all() {
            if value.is_text(word) {
                return Some(*value);
            }
        }
        None
    }
}
