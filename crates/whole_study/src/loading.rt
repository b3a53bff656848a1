//! The session of a run, opened from its inputs.

ghost use Rattle.std.specs.Prelude.{◌≡◌, IfErr, IfOk, Ok, Some, [], unwrap_or};
ghost use Rattle.lsdb.specs.Slots.{lists_of};
ghost use Rattle.edit_history.specs.Session.{Session, state};
ghost use Rattle.saved_sessions.specs.Opening.{opened};
ghost use Rattle.network_names.specs.File.{Taken, names_in};
ghost use Rattle.study_session.specs.Studies.{study_of};
ghost use Rattle.whole_run.specs.Inputs.{IsRefusedDump};
ghost use Rattle.whole_study.specs.Begin.{Begins, IsBaseline};
ghost use Rattle.whole_study.specs.Calls.{MayEndRun};
ghost use Rattle.whole_study.specs.steps.Texts.{IsNamesEnd, IsReadEnd, IsRefusedBaseline, MayEndLoading, Never, bytes_in, given_in};

use crate::fault::{NamesRefusal, RunFault};
use crate::inputs::Texts;
use crate::running::Manner;
use branches::Branches;
use lsdb::{Database, DumpFault, DumpFaultKind};
use network_names::{Names, NamesError, read_names};
use recalculate::Planner;
use saved_sessions::open;
use std::alloc::Allocator;
use study_session::StudySession;

/// Opens the dump.
fn open_dump<A: Allocator + Copy>(alloc: A, bytes: &[u8]) -> Result<Planner<A>, RunFault<A>>
    ensures opened { IfOk result (λ planner. opened bytes.now ≡ Ok planner.session) }
    ensures end { IfErr result (IsReadEnd (IsRefusedDump (Some bytes.now)) Never ⊥) }
    ensures early { IfErr result MayEndLoading }
{
    match open(alloc, bytes) {
        Ok(planner) => Ok(planner),
        Err(fault) => match fault.kind {
            DumpFaultKind::OutOfMemory => Err(RunFault::OutOfMemory),
            _ => Err(RunFault::Dump(fault)),
        },
    }
}

/// The database of a baseline, with its done edits.
fn open_baseline<A: Allocator + Copy>(alloc: A, bytes: &[u8]) -> Result<Database<A>, RunFault<A>>
    ensures opened { IfOk result (λ database. (other : Session)
        × ((opened bytes.now ≡ Ok other) × (lists_of database ≡ state other))) }
    ensures end { IfErr result (IsReadEnd Never (IsRefusedDump (Some bytes.now)) ⊥) }
    ensures early { IfErr result MayEndLoading }
{
    match open(alloc, bytes) {
        Ok(planner) => Ok(planner.database().clone_of()?),
        Err(fault) => match fault.kind {
            DumpFaultKind::OutOfMemory => Err(RunFault::OutOfMemory),
            _ => Err(RunFault::Baseline(fault)),
        },
    }
}

/// What a session is compared with: the database of the baseline, or the one that it began at.
fn baseline_of<A: Allocator + Copy>(
    alloc: A,
    planner: &mut Planner<A>,
    baseline: &Option<Vec<u8, A>>,
) -> Result<Database<A>, RunFault<A>>
    ensures baseline { IfOk result (λ database.
        IsBaseline planner.old.session (bytes_in baseline.now) (lists_of database)) }
    ensures end { IfErr result
        (IsReadEnd Never (IsRefusedBaseline (bytes_in baseline.now)) ⊥) }
    ensures early { IfErr result MayEndLoading }
    ensures kept { planner.new ≡ planner.old }
{
    match baseline {
        None => Ok(planner.base()?),
        Some(bytes) => open_baseline(alloc, bytes.as_slice()),
    }
}

/// The names of a file.
fn load_names<'t, A: Allocator + Copy>(
    alloc: A,
    text: &'t [u8],
) -> Result<Names<'t, A>, RunFault<A>>
    ensures taken { IfOk result (Taken (names_in text.now)) }
    ensures end { IfErr result (IsNamesEnd text.now) }
    ensures early { IfErr result MayEndLoading }
{
    match read_names(alloc, text) {
        Ok(names) => Ok(names),
        Err(NamesError::OutOfMemory) => Err(RunFault::OutOfMemory),
        Err(NamesError::Fault(fault)) => Err(RunFault::Names(NamesRefusal {
            line: fault.line,
            kind: fault.kind,
            word: Vec::from_slice(alloc, fault.word)?,
        })),
    }
}

/// The text of the names file; empty, where none is given.
fn names_text<A: Allocator>(names: &Option<Vec<u8, A>>) -> &[u8]
    ensures { result.now ≡ unwrap_or (bytes_in names.now) [] }
{
    match names {
        None => &[],
        Some(bytes) => bytes.as_slice(),
    }
}

/// The session of a run: that of the dump, compared with the baseline, with the names. Edits say
/// what they changed where that is wanted, and answers have the form that is wanted.
pub(crate) fn load<'t, A: Allocator + Copy>(
    alloc: A,
    texts: &'t Texts<'_, A>,
    manner: Manner,
) -> Result<StudySession<'t, A>, RunFault<A>>
    ensures begins { IfOk result
        (λ session. Begins manner (given_in texts.now) (study_of session)) }
    ensures end { IfErr result (MayEndRun (given_in texts.now)) }
    ensures early { IfErr result MayEndLoading }
{
    let mut planner = open_dump(alloc, &texts.dump)?;
    let baseline = baseline_of(alloc, &mut planner, &texts.baseline)?;
    let names = load_names(alloc, names_text(&texts.names))?;
    let branches = Branches::resume(alloc, planner);
    let Manner {
        is_verbose,
        format,
        ..
    } = manner;
    Ok(StudySession::new(branches, baseline, names, is_verbose, format))
}
