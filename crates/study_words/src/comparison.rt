//! How numbers are compared.
#![tactic(auto, unfolding(crate::specs::Written::written))]

use crate::word::Word;

/// How a number that was found is compared with the number of a line.
#[derive(Clone, Copy, Debug, PartialEq, Eq)]
pub enum Comparison {
    /// At most the number.
    AtMost,
    /// Equal to the number.
    Equal,
    /// At least the number.
    AtLeast,
}

impl Word for Comparison {
    ghost use Rattle.study_words.specs.Comparisons.{comparison_text, comparisons};

    ghost all = { comparisons };

    ghost spelled = { comparison_text };

    fn all() -> &'static [Comparison] {
        &[Comparison::AtMost, Comparison::Equal, Comparison::AtLeast]
    }

    fn text(self) -> &'static str {
        match self {
            Comparison::AtMost => "<=",
            Comparison::Equal => "=",
            Comparison::AtLeast => ">=",
        }
    }
}
