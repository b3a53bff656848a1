//! Prefixes that routers have no entry for any more.

ghost use Rattle.std.specs.Prelude.{◌≡◌, IfOk};
ghost use Rattle.study_answers.specs.Missing.{missing_lines, missing_pairs, missing_text, missing_word};

use change_lines::{Pair, PairLine};
use change_report::{gone_lines, lost_lines};
use comparison::Comparison;
use std::alloc::{AllocError, Allocator};
use study_words::SeeWord;

/// Why a router has no entry for a prefix any more.
#[derive(Clone, Copy, Debug)]
pub enum Missing {
    /// It has lost the prefix, which somebody announces.
    Lost,
    /// The prefix is gone: nobody announces it.
    Gone,
}

impl Missing {
    /// The word of the question.
    pub fn word(self) -> SeeWord
        ensures { result ≡ missing_word self }
    {
        match self {
            Missing::Lost => SeeWord::Lost,
            Missing::Gone => SeeWord::Gone,
        }
    }

    /// The routers with such prefixes.
    ///
    /// # Errors
    ///
    /// Memory ran out.
    #[tactic(auto, unfolding(crate::specs::Missing::missing_pairs))]
    pub fn pairs<A: Allocator + Copy>(
        self,
        alloc: A,
        both: &Comparison<'_, A>,
    ) -> Result<Vec<Pair, A>, AllocError>
        ensures { IfOk result (λ pairs. pairs.items ≡ missing_pairs self both.now) }
    {
        match self {
            Missing::Lost => both.lost(alloc),
            Missing::Gone => both.gone(alloc),
        }
    }

    /// The routers with such prefixes, each with what it used.
    ///
    /// # Errors
    ///
    /// Memory ran out.
    #[tactic(auto, unfolding(crate::specs::Missing::missing_lines))]
    pub fn lines<A: Allocator + Copy>(
        self,
        alloc: A,
        both: &Comparison<'_, A>,
    ) -> Result<Vec<PairLine<A>, A>, AllocError>
        ensures { IfOk result (λ lines. lines.items ≡ missing_lines self both.now) }
    {
        match self {
            Missing::Lost => lost_lines(alloc, both),
            Missing::Gone => gone_lines(alloc, both),
        }
    }

    /// The word of the condition.
    pub fn text(self) -> &'static str
        ensures { result.now ≡ missing_text self }
    {
        match self {
            Missing::Lost => "lost",
            Missing::Gone => "gone",
        }
    }
}
