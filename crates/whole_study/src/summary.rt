//! The summary of a run.

ghost use Rattle.std.specs.Prelude.{◌≡◌, ◌++◌, ◌∷◌, [], IfOk, List, OnOk};
ghost use Rattle.whole_study.specs.Lines.{Line};
ghost use Rattle.whole_study.specs.Run.{Answered, counts_text, has_passed, result_word, summary_document, summary_in, summary_of, summary_text, with_count};
ghost use Rattle.study_session.specs.declared.format.Format.{Format as AnyFormat};
ghost use Rattle.whole_study.specs.steps.Counting.{Grows, HasRoom};

use std::alloc::{AllocError, Allocator};
use study_answers::{Answer, Outcome};
use study_documents::{Counted, push_summary};
use study_session::Format;
use study_text::push_number;

/// How many lines had an answer, and what became of them.
#[derive(Clone, Copy, Debug, PartialEq, Eq)]
pub struct Summary {
    /// The lines with an answer.
    pub lines: u64,
    /// Those that were refused.
    pub refused: u64,
    /// The expectations that were neither faulty nor refused.
    pub expectations: u64,
    /// Those of them that failed.
    pub failed: u64,
}

impl Summary {
    /// Whether no line was refused, and no expectation failed.
    pub fn has_passed(&self) -> bool
        ensures { result ≡ has_passed self.now }
    {
        self.refused == 0 && self.failed == 0
    }

    /// The summary of no line.
    pub(crate) fn new() -> Summary
        ensures { result ≡ summary_of [] }
    {
        Summary {
            lines: 0,
            refused: 0,
            expectations: 0,
            failed: 0,
        }
    }

    /// Counts an answer.
    pub(crate) fn count<A: Allocator>(&mut self, answer: &Answer<A>)
        requires { HasRoom 1 self.old }
        ensures counted { (done : List Answered) (line : Line) (format : AnyFormat)
            → self.old ≡ summary_of done → self.new ≡ summary_of
            (done ++ record { line = line; answer = answer.now; format = format } ∷ []) }
        ensures grows { Grows 1 self.old self.new }
    {
        self.lines += 1;
        if answer.is_expectation {
            self.expectations += 1;
        }
        match answer.outcome {
            Outcome::Accepted => {}
            Outcome::Refused => self.refused += 1,
            Outcome::Failed => self.failed += 1,
        }
    }
}

/// The word for the result of a run.
fn result_word(has_passed: bool) -> &'static str
    ensures { result.now ≡ result_word has_passed }
{
    if has_passed { "ok" } else { "failed" }
}

/// Adds a word and a number.
fn push_count<A: Allocator + Copy>(
    text: &mut Vec<u8, A>,
    word: &str,
    count: u64,
) -> Result<(), AllocError>
    ensures { OnOk result (text.new.items ≡ text.old.items ++ with_count word.now count) }
{
    text.extend_from_slice(word.as_bytes())?;
    push_number(text, count)
}

/// Adds the counts.
#[tactic(auto, unfolding(crate::specs::Run::counts_text))]
fn push_counts<A: Allocator + Copy>(
    text: &mut Vec<u8, A>,
    summary: &Summary,
) -> Result<(), AllocError>
    ensures { OnOk result (text.new.items ≡ text.old.items ++ counts_text summary.now) }
{
    push_count(text, " lines ", summary.lines)?;
    push_count(text, " refused ", summary.refused)?;
    push_count(text, " expectations ", summary.expectations)?;
    push_count(text, " failed ", summary.failed)
}

/// What the last document of a run counts.
fn counted(summary: &Summary) -> Counted
    ensures { result ≡ record {
      has_passed = has_passed summary.now;
      lines = summary.now.lines;
      refused = summary.now.refused;
      expectations = summary.now.expectations;
      failed = summary.now.failed;
    } }
{
    Counted {
        has_passed: summary.has_passed(),
        lines: summary.lines,
        refused: summary.refused,
        expectations: summary.expectations,
        failed: summary.failed,
    }
}

/// The last document of a run.
fn summary_document<A: Allocator + Copy>(
    alloc: A,
    summary: &Summary,
) -> Result<Vec<u8, A>, AllocError>
    ensures { IfOk result (λ text. text.items ≡ summary_document summary.now) }
{
    let mut text = Vec::new(alloc);
    push_summary(&mut text, counted(summary))?;
    text.push(b'\n')?;
    Ok(text)
}

/// The last line of a run, in the form of the answers.
pub(crate) fn summary_line<A: Allocator + Copy>(
    alloc: A,
    format: Format,
    summary: &Summary,
) -> Result<Vec<u8, A>, AllocError>
    ensures { IfOk result (λ text. text.items ≡ summary_in format summary.now) }
{
    match format {
        Format::Text => summary_text(alloc, summary),
        Format::Json => summary_document(alloc, summary),
    }
}

/// The last line of a run: `study RESULT lines N refused N expectations N failed N`.
fn summary_text<A: Allocator + Copy>(alloc: A, summary: &Summary) -> Result<Vec<u8, A>, AllocError>
    ensures { IfOk result (λ text. text.items ≡ summary_text summary.now) }
{
    let mut text = Vec::new(alloc);
    text.extend_from_slice(b"study ")?;
    text.extend_from_slice(result_word(summary.has_passed()).as_bytes())?;
    push_counts(&mut text, summary)?;
    text.push(b'\n')?;
    Ok(text)
}
