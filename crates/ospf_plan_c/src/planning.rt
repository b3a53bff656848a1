//! A run of a script.

ghost use Rattle.std.specs.Prelude.{◌≡◌, ◌≢◌, ◌⊎◌, length};
ghost use Rattle.plan_slices.specs.Texts.{end_text};
ghost use Rattle.ospf_plan_c.specs.Plans.{AreInRooms, EndsEarly, LacksRoom, no_texts, status_of};
ghost use Rattle.ospf_plan_c.specs.Status.{IsReported, done, no_room};

use crate::line::put_line;
use crate::status::{DONE, NO_MEMORY, NO_ROOM, REFUSED, TOO_LARGE};
use host_heap::{HostHeap, HostMemory};
use plan_slices::{PlanTexts, Wanted, copy_texts, fault_text, plan};
use std::alloc::Allocator;
use whole_run::RunFault;

/// Which texts of a run are wanted.
#[repr(C)]
#[derive(Clone, Copy, Debug, PartialEq, Eq)]
pub struct PlanWanted {
    /// The replies.
    pub replies: bool,
    /// The dump that branch 0 is left with.
    pub dump: bool,
    /// The session of branch 0.
    pub session: bool,
}

/// What a run reports beside its texts. All is 0 where a run ended early, but for `fault`.
#[repr(C)]
#[derive(Clone, Copy, Debug, PartialEq, Eq)]
pub struct PlanReport {
    /// The length of the replies, in bytes; 0 where they are not wanted.
    pub replies: usize,
    /// The length of the dump, in bytes; 0 where it is not wanted.
    pub dump: usize,
    /// The length of the session, in bytes; 0 where it is not wanted.
    pub session: usize,
    /// The length of the line of a run that ended early, in bytes; else 0.
    pub fault: usize,
    /// The number of lines with a reply.
    pub commands: u64,
    /// The number of those that were refused.
    pub refused: u64,
}

/// Carries out a script on a dump or on a saved session, and copies the texts that are wanted to
/// the front of the room for each. The status is 0; 6 where a room is too small: then no text is
/// copied, and the report has the lengths; or that of the program for a run that ended early, whose
/// line is copied to `fault` where there is room for it. A room keeps the bytes after what is
/// copied.
#[unsafe(no_mangle)]
pub extern "C" fn ospf_plan_run(
    memory: HostMemory,
    wanted: &PlanWanted,
    dump: &[u8],
    script: &[u8],
    replies: &mut [u8],
    out: &mut [u8],
    session: &mut [u8],
    fault: &mut [u8],
    report: &mut PlanReport,
) -> u32
    ensures ended { AreInRooms wanted.now dump.now script.now replies.old replies.new
        out.old out.new session.old session.new report.new result
        ⊎ (LacksRoom wanted.now dump.now script.now replies.old out.old session.old
        report.new result
        ⊎ EndsEarly dump.now script.now fault.old fault.new report.new result) }
    ensures kept { result ≢ done → (replies.new ≡ replies.old)
        × ((out.new ≡ out.old) × (session.new ≡ session.old)) }
    ensures fault_kept { (result ≡ done) ⊎ (result ≡ no_room) → fault.new ≡ fault.old }
{
    let heap = HostHeap::new(memory);
    let wanted = Wanted {
        replies: wanted.replies,
        dump: wanted.dump,
        session: wanted.session,
    };
    match plan(&heap, dump, script, wanted) {
        Ok(texts) => {
            *report = report_of(&texts);
            if copy_texts(
                &texts.replies,
                &texts.dump,
                &texts.session,
                replies,
                out,
                session,
            ) {
                DONE
            } else {
                NO_ROOM
            }
        }
        Err(end) => {
            *report = no_texts(copy_fault(&heap, end, fault));
            status_of(end)
        }
    }
}

/// The report of a run with these texts.
fn report_of<A: Allocator>(texts: &PlanTexts<A>) -> PlanReport
    ensures replies { result.replies ≡ length texts.now.replies.items }
    ensures dump { result.dump ≡ length texts.now.dump.items }
    ensures session { result.session ≡ length texts.now.session.items }
    ensures fault { result.fault ≡ 0 }
    ensures commands { result.commands ≡ texts.now.summary.commands }
    ensures refused { result.refused ≡ texts.now.summary.refused }
{
    PlanReport {
        replies: texts.replies.len(),
        dump: texts.dump.len(),
        session: texts.session.len(),
        fault: 0,
        commands: texts.summary.commands,
        refused: texts.summary.refused,
    }
}

/// The report of a run that ended early, whose line has this length in bytes.
fn no_texts(fault: usize) -> PlanReport
    ensures { result ≡ no_texts fault }
{
    PlanReport {
        replies: 0,
        dump: 0,
        session: 0,
        fault,
        commands: 0,
        refused: 0,
    }
}

/// Copies the line of a run that ended early to the room for it, where there is enough. Returns the
/// length of the line in bytes; 0 where there is no memory for it.
fn copy_fault<A: Allocator + Copy>(alloc: A, end: RunFault, room: &mut [u8]) -> usize
    ensures { IsReported (end_text end) result room.old room.new }
{
    match fault_text(alloc, end) {
        Ok(line) => put_line(line.as_bytes(), room),
        Err(_) => 0,
    }
}

/// The status of a run that ended early.
fn status_of(end: RunFault) -> u32
    ensures status { result ≡ status_of end }
    ensures early { (result ≢ done) × (result ≢ no_room) }
{
    match end {
        RunFault::Dump(_) => REFUSED,
        RunFault::Read | RunFault::TooLarge => TOO_LARGE,
        RunFault::Write | RunFault::OutOfMemory => NO_MEMORY,
    }
}
