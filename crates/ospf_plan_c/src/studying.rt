//! A run of a study.

ghost use Rattle.std.specs.Borrow.{Bor};
ghost use Rattle.std.specs.Prelude.{◌≡◌, ◌≢◌, ◌<◌, ◌⊎◌, length, if◌then◌else◌, option_map};
ghost use Rattle.host_heap.specs.declared.heap.HostHeap.{HostHeap as AnyHeap};
ghost use Rattle.study_slices.specs.Ends.{end_text};
ghost use Rattle.study_slices.specs.Studied.{given_of};
ghost use Rattle.whole_study.specs.Run.{has_passed};
ghost use Rattle.ospf_plan_c.specs.Status.{IsReported, done, no_room, not_accepted};
ghost use Rattle.ospf_plan_c.specs.Studies.{AreInRooms, EndsEarly, LacksRoom, format_if, given_if, manner_of, no_texts, report_of, study_status};

use crate::line::put_line;
use crate::status::{DONE, NO_MEMORY, NO_ROOM, NOT_ACCEPTED, REFUSED, TOO_LARGE};
use host_heap::{HostHeap, HostMemory};
use plan_slices::copy_texts;
use std::alloc::Allocator;
use study_session::Format;
use study_slices::{StudyTexts, fault_text, study};
use whole_study::{Manner, RunFault, Summary};

/// How a study is carried out: the options of `ospf-study`.
#[repr(C)]
#[derive(Clone, Copy, Debug, PartialEq, Eq)]
pub struct StudyManner {
    /// Whether a baseline is given.
    pub has_baseline: bool,
    /// Whether the run goes on after a line that is not accepted.
    pub keep_going: bool,
    /// Whether each edit says what it changed.
    pub verbose: bool,
    /// Whether lines are answered as JSON.
    pub json: bool,
    /// Whether the dump of branch 0 is wanted at the end.
    pub wants_dump: bool,
}

/// What a study reports beside its texts. All is 0 where it ended early, but for `errors`.
#[repr(C)]
#[derive(Clone, Copy, Debug, PartialEq, Eq)]
pub struct StudyReport {
    /// The length of the replies, in bytes.
    pub replies: usize,
    /// The length of the lines of those that are not accepted, in bytes; of a study that ended
    /// early, of the line that says why.
    pub errors: usize,
    /// The length of the dump, in bytes; 0 where it is not wanted, or a line is not accepted.
    pub dump: usize,
    /// The number of lines with an answer.
    pub lines: u64,
    /// The number of those that were refused.
    pub refused: u64,
    /// The number of expectations that were neither faulty nor refused.
    pub expectations: u64,
    /// The number of those that failed.
    pub failed: u64,
}

/// Carries out a study on a dump or on a saved session, and copies what `ospf-study` writes to the
/// front of the room for each text. The status is 0 or 1, as each line was accepted or not; 6 where
/// a room is too small: then no text is copied, and the report has the lengths; or that of the
/// program for a run that ended early, whose line is copied to `errors` where there is room for it.
/// A room keeps the bytes after what is copied.
#[unsafe(no_mangle)]
pub extern "C" fn ospf_study_run(
    memory: HostMemory,
    manner: &StudyManner,
    dump: &[u8],
    baseline: &[u8],
    names: &[u8],
    lines: &[u8],
    replies: &mut [u8],
    errors: &mut [u8],
    left: &mut [u8],
    report: &mut StudyReport,
) -> u32
    ensures ended { AreInRooms (manner_of manner.now)
        (given_of dump.now (given_if manner.now.has_baseline baseline.now) names.now lines.now)
        replies.old replies.new errors.old errors.new left.old left.new report.new result
        ⊎ (LacksRoom (manner_of manner.now)
        (given_of dump.now (given_if manner.now.has_baseline baseline.now) names.now lines.now)
        replies.old errors.old left.old report.new result
        ⊎ EndsEarly (Bor AnyHeap)
        (given_of dump.now (given_if manner.now.has_baseline baseline.now) names.now lines.now)
        errors.old errors.new report.new result) }
    ensures kept { 1 < result → (replies.new ≡ replies.old) × (left.new ≡ left.old) }
    ensures errors_kept { result ≡ no_room → errors.new ≡ errors.old }
{
    let heap = HostHeap::new(memory);
    let baseline = baseline_of(manner, baseline);
    match study(&heap, manner_of(manner), dump, baseline, names, lines) {
        Ok(texts) => {
            *report = report_of(&texts);
            if copy_texts(
                &texts.replies,
                &texts.errors,
                &texts.dump,
                replies,
                errors,
                left,
            ) {
                status_of(&texts.summary)
            } else {
                NO_ROOM
            }
        }
        Err(end) => {
            *report = no_texts(copy_fault(&heap, &end, errors));
            end_status(&end)
        }
    }
}

/// How a study is carried out.
fn manner_of(manner: &StudyManner) -> Manner
    ensures { result ≡ manner_of manner.now }
{
    Manner {
        keep_going: manner.keep_going,
        wants_dump: manner.wants_dump,
        is_verbose: manner.verbose,
        format: format_if(manner.json),
    }
}

/// The form of the answers.
fn format_if(json: bool) -> Format
    ensures { result ≡ format_if json }
{
    if json { Format::Json } else { Format::Text }
}

/// The baseline, where one is given.
fn baseline_of<'a>(manner: &StudyManner, baseline: &'a [u8]) -> Option<&'a [u8]>
    ensures { option_map (λ bytes. bytes.now) result
        ≡ given_if manner.now.has_baseline baseline.entry.now }
{
    if manner.has_baseline {
        Some(baseline)
    } else {
        None
    }
}

/// The status of a study that was carried out.
fn status_of(summary: &Summary) -> u32
    ensures { result ≡ (if has_passed summary.now then done else not_accepted) }
{
    if summary.has_passed() {
        DONE
    } else {
        NOT_ACCEPTED
    }
}

/// The report of a study with these texts.
fn report_of<A: Allocator>(texts: &StudyTexts<A>) -> StudyReport
    ensures { result ≡ report_of (length texts.now.replies.items) (length texts.now.errors.items)
        (length texts.now.dump.items) texts.now.summary }
{
    StudyReport {
        replies: texts.replies.len(),
        errors: texts.errors.len(),
        dump: texts.dump.len(),
        lines: texts.summary.lines,
        refused: texts.summary.refused,
        expectations: texts.summary.expectations,
        failed: texts.summary.failed,
    }
}

/// The report of a study that ended early, whose line has this length in bytes.
fn no_texts(errors: usize) -> StudyReport
    ensures { result ≡ no_texts errors }
{
    StudyReport {
        replies: 0,
        errors,
        dump: 0,
        lines: 0,
        refused: 0,
        expectations: 0,
        failed: 0,
    }
}

/// Copies the line of a study that ended early to the room for it, where there is enough. Returns
/// the length of the line in bytes; 0 where there is no memory for it.
fn copy_fault<A: Allocator + Copy>(alloc: A, end: &RunFault<A>, room: &mut [u8]) -> usize
    ensures { IsReported (end_text end.now) result room.old room.new }
{
    match fault_text(alloc, end) {
        Ok(line) => put_line(&line, room),
        Err(_) => 0,
    }
}

/// The status of a study that ended early.
fn end_status<A: Allocator>(end: &RunFault<A>) -> u32
    ensures status { result ≡ study_status end.now }
    ensures early { (1 < result) × (result ≢ no_room) }
{
    match end {
        RunFault::Dump(_) | RunFault::Baseline(_) | RunFault::Names(_) => REFUSED,
        RunFault::Read | RunFault::TooLarge => TOO_LARGE,
        RunFault::Write | RunFault::OutOfMemory => NO_MEMORY,
    }
}
