//! The effects of failures, and how many failures have each.

ghost use Rattle.std.specs.Prelude.{◌≡◌};
ghost use Rattle.sweep_report.specs.Texts.{count_with, counts_effect, effect_text, has_effect, refusal_effect};

use crate::counts::FailureCounts;
use crate::outcome::{FailureLine, Outcome};

/// What a failure does, as its line says it by a number that is not 0, or that it is refused.
#[derive(Clone, Copy, Debug, PartialEq, Eq)]
pub(crate) enum Effect {
    /// Routers have lost entries.
    Lost,
    /// Prefixes that routers had an entry for are gone.
    Gone,
    /// Entries cost more.
    Dearer,
    /// Entries of the same cost lead another way.
    Moved,
    /// There are loops.
    Loops,
    /// The failure is refused, so that nothing of this is known.
    Refused,
}

impl Effect {
    /// The word for it.
    pub(crate) fn text(self) -> &'static str
        ensures { result.now ≡ effect_text self }
    {
        match self {
            Effect::Lost => "lost",
            Effect::Gone => "gone",
            Effect::Dearer => "dearer",
            Effect::Moved => "moved",
            Effect::Loops => "loops",
            Effect::Refused => "refused",
        }
    }

    /// Whether the counts of a failure say so.
    fn is_counted(self, counts: FailureCounts) -> bool
        ensures { result ≡ counts_effect self counts }
    {
        match self {
            Effect::Lost => counts.lost != 0,
            Effect::Gone => counts.gone != 0,
            Effect::Dearer => counts.dearer != 0,
            Effect::Moved => counts.moved != 0,
            Effect::Loops => counts.loops != 0,
            Effect::Refused => false,
        }
    }

    /// Whether it is that a failure is refused.
    fn is_refusal(self) -> bool
        ensures { result ≡ refusal_effect self }
    {
        match self {
            Effect::Refused => true,
            _ => false,
        }
    }

    /// Whether a failure has this effect.
    fn is_of(self, line: &FailureLine) -> bool
        ensures { result ≡ has_effect self line.now }
    {
        match line.outcome {
            Outcome::Counted(counts) => self.is_counted(counts),
            Outcome::Refused(_) => self.is_refusal(),
        }
    }

    /// How many of some failures have this effect.
    pub(crate) fn count_in(self, lines: &[FailureLine]) -> usize
        ensures { result ≡ count_with self lines.now }
    {
        lines.iter().filter(|line| self.is_of(*line)).count()
    }
}
