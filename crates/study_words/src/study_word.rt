//! The command words of studies.

ghost use Rattle.std.specs.Prelude.{◌≡◌};
ghost use Rattle.study_words.specs.StudyWords.{study_text, study_word_of};

use crate::event_word::EventWord;
use crate::plan_word::PlanWord;
use crate::see_word::SeeWord;
use crate::word::Word;

/// A command word of a study.
#[derive(Clone, Copy, Debug, PartialEq, Eq)]
pub enum StudyWord {
    /// A word that `ospf-plan` has, too.
    Plan(PlanWord),
    /// A question that only studies have.
    See(SeeWord),
    /// An event, or `back`.
    Event(EventWord),
    /// `expect [not] CONDITION`: answers whether the condition holds, and what was found.
    Expect,
}

impl StudyWord {
    /// The word as it is written.
    pub fn text(self) -> &'static str
        ensures { result.now ≡ study_text self }
    {
        match self {
            StudyWord::Plan(word) => word.text(),
            StudyWord::See(word) => word.text(),
            StudyWord::Event(word) => word.text(),
            StudyWord::Expect => "expect",
        }
    }

    /// The command word that a word is, if it is one.
    #[tactic(auto, unfolding(crate::specs::StudyWords::study_word_of))]
    pub fn of(word: &[u8]) -> Option<StudyWord>
        ensures { result ≡ study_word_of word.now }
    {
        if let Some(plan) = PlanWord::of(word) {
            return Some(StudyWord::Plan(plan));
        }
        if let Some(see) = SeeWord::of(word) {
            return Some(StudyWord::See(see));
        }
        if let Some(event) = EventWord::of(word) {
            return Some(StudyWord::Event(event));
        }
        if word == b"expect".as_slice() {
            Some(StudyWord::Expect)
        } else {
            None
        }
    }
}
