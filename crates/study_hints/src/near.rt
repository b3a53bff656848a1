//! The word that is most like another.

ghost use Rattle.std.specs.Prelude.{◌≡◌, ◌≤◌, length, map, option_map, reverse};
ghost use Rattle.study_hints.specs.Near.{common, likeness, near};

use std::alloc::Allocator;
use study_words::{AuditKind, ConditionWord, StudyWord, Word};

/// The length of the common front of two words.
#[tactic(auto, using(crate::proofs::CommonFront::one_more, crate::proofs::CommonFront::ends_here, crate::proofs::CommonFront::all_common))]
fn common_front(word: &[u8], other: &[u8]) -> usize
    ensures value { result ≡ common word.now other.now }
    ensures short { result ≤ length word.now }
{
    let shorter = word.len().min(other.len());
    for index in 0..shorter {
        if word[index] != other[index] {
            return index;
        }
    }
    shorter
}

/// The length of the common end of two words.
#[tactic(auto, using(crate::proofs::CommonFront::one_more_at_end, crate::proofs::CommonFront::end_ends_here, crate::proofs::CommonFront::all_common_at_end))]
fn common_end(word: &[u8], other: &[u8]) -> usize
    ensures value { result ≡ common (reverse word.now) (reverse other.now) }
    ensures short { result ≤ length word.now }
{
    let shorter = word.len().min(other.len());
    for index in 0..shorter {
        if word[word.len() - 1 - index] != other[other.len() - 1 - index] {
            return index;
        }
    }
    shorter
}

/// How like a word another is: the lengths of their common front and of their common end.
#[tactic(auto, unfolding(crate::specs::Near::likeness))]
fn likeness(word: &[u8], other: &[u8]) -> usize
    ensures { result ≡ likeness word.now other.now }
{
    common_front(word, other) + common_end(word, other)
}

/// A word that may be offered in place of one that is not known.
pub trait Candidate {
    ghost use Rattle.std.specs.Prelude.{◌≡◌, ℕ, List};

    /// How it is written.
    ghost written: { Self → List ℕ };

    /// The word.
    fn bytes(&self) -> &[u8]
        ensures { result.now ≡ written self.now };
}

impl Candidate for StudyWord {
    ghost use Rattle.study_words.specs.StudyWords.{study_text};

    ghost written = { study_text };

    fn bytes(&self) -> &[u8] {
        self.text().as_bytes()
    }
}

impl Candidate for ConditionWord {
    ghost use Rattle.study_words.specs.ConditionWords.{condition_text};

    ghost written = { condition_text };

    fn bytes(&self) -> &[u8] {
        self.text().as_bytes()
    }
}

impl Candidate for AuditKind {
    ghost use Rattle.study_words.specs.AuditKinds.{audit_kind_text};

    ghost written = { audit_kind_text };

    fn bytes(&self) -> &[u8] {
        self.text().as_bytes()
    }
}

impl<'a> Candidate for &'a [u8] {
    ghost written = { λ word. word.now };

    fn bytes(&self) -> &[u8] {
        self
    }
}

impl<'a> Candidate for &'a str {
    ghost written = { λ word. word.now };

    fn bytes(&self) -> &[u8] {
        self.as_bytes()
    }
}

impl<A: Allocator> Candidate for Vec<u8, A> {
    ghost written = { λ word. word.items };

    fn bytes(&self) -> &[u8] {
        self.as_slice()
    }
}

/// The first candidate that is most like a word, where one is like it at all: the length of their
/// common front and that of their common end, each counted by itself and added, is the greatest.
pub fn nearest<'a, T: Candidate>(word: &[u8], candidates: &'a [T]) -> Option<&'a T>
    ensures { option_map (λ found. T.written found.now) result
        ≡ near word.now (map T.written candidates.now) }
{
    let mut best = None;
    let mut most = 0;
    for candidate in candidates {
        let alike = likeness(word, candidate.bytes());
        if alike > most {
            most = alike;
            best = Some(candidate);
        }
    }
    best
}
