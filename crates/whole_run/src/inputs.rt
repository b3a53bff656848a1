//! The two inputs of a run: the dump, which may be that of a session, and the script.

ghost use Rattle.std.specs.Prelude.{◌≡◌, ◌≢◌, ◌↔◌, ◌<◌, ◌≤◌, ◌+◌, ◌++◌, ℕ, List, Option, true, false, Ok, vec_len, IfSome, IfOk, IfErr, OnOk};
ghost use Rattle.std.specs.Io.KnownBytes.{IsAtEnd};
ghost use Rattle.host_io.specs.Watched.{inner_of, has_failed, has_ended};
ghost use Rattle.host_io.specs.WholeText.{IsAll, IsLonger, ConsumesAtMost};
ghost use Rattle.lsdb.specs.Limits.{longest_dump};
ghost use Rattle.lsdb.specs.Loading.{IsFirstFault};
ghost use Rattle.saved_sessions.specs.Opening.{opened};
ghost use Rattle.branches.specs.Branches.{sessions_of};
ghost use Rattle.whole_run.specs.Run.{begun};
ghost use Rattle.whole_run.specs.Inputs.{IsAccepted, IsTooLong, longest_script, most_read};
ghost use Rattle.whole_run.specs.steps.Reading.{IsDumpEnd, IsScriptEnd, most_after};

use crate::fault::RunFault;
use branches::Branches;
use host_io::{ReadFault, Watched, read_more, read_whole};
use lsdb::{DumpFault, DumpFaultKind, LONGEST_DUMP, LONGEST_SESSION};
use saved_sessions::{begins_session, open};
use std::alloc::Allocator;
use std::io::Read;

/// The greatest length of a script, in bytes.
pub(crate) const SCRIPT_LIMIT: usize = 1_048_576;

/// Reads on after more bytes than a dump without edits may have: those of a session may be more.
fn read_on<A: Allocator + Copy, R: Read>(
    dump: &mut Watched<R>,
    front: Vec<u8, A>,
) -> Result<Vec<u8, A>, ReadFault>
    requires open { has_failed dump.old ≡ false }
    requires long { longest_dump < vec_len front }
    ensures whole { IfOk result (λ bytes. IfSome (R.remaining (inner_of dump.old))
        (λ rest. bytes.items ≡ front.items ++ rest)) }
    ensures too_large { result ≡ Err ReadFault.TooLarge
        → IfSome (R.remaining (inner_of dump.old)) (λ rest. IsTooLong (front.items ++ rest)) }
    ensures failed { (result ≡ Err ReadFault.Failed) ↔ (has_failed dump.new ≡ true) }
    ensures bounded { ConsumesAtMost (R.remaining (inner_of dump.old))
        (R.remaining (inner_of dump.new)) (most_after front.items) }
{
    if !begins_session(front.as_slice()) {
        return Err(ReadFault::TooLarge);
    }
    let mut bytes = front;
    read_more(dump, &mut bytes, LONGEST_SESSION)?;
    Ok(bytes)
}

/// Reads the bytes of a dump, or of a session, whole.
///
/// At most one byte past those that it may have is read.
///
/// # Errors
///
/// `Failed` exactly where a read failed, `TooLarge` only where there are more bytes than a dump, or
/// a session, may have, and `OutOfMemory` where a growth was refused.
pub fn read_dump<A: Allocator + Copy, R: Read>(
    alloc: A,
    dump: &mut Watched<R>,
) -> Result<Vec<u8, A>, ReadFault>
    requires { has_failed dump.old ≡ false }
    ensures whole { IfOk result (λ bytes. IsAll (R.remaining (inner_of dump.old)) bytes.items) }
    ensures too_large { result ≡ Err ReadFault.TooLarge
        → IfSome (R.remaining (inner_of dump.old)) IsTooLong }
    ensures failed { (result ≡ Err ReadFault.Failed) ↔ (has_failed dump.new ≡ true) }
    ensures bounded { ConsumesAtMost (R.remaining (inner_of dump.old))
        (R.remaining (inner_of dump.new)) (most_read (R.remaining (inner_of dump.old))) }
{
    let mut bytes = Vec::new(alloc);
    match read_more(dump, &mut bytes, LONGEST_DUMP) {
        Ok(()) => Ok(bytes),
        Err(ReadFault::TooLarge) => read_on(dump, bytes),
        Err(fault) => Err(fault),
    }
}

/// Reads a dump whole, and opens the session that it has.
pub(crate) fn read_branches<A: Allocator + Copy, R: Read>(
    alloc: A,
    dump: &mut Watched<R>,
) -> Result<Branches<A>, RunFault>
    requires { has_failed dump.old ≡ false }
    ensures loads { IfOk result
        (λ branches. IfSome (R.remaining (inner_of dump.old))
        (λ bytes. begun (opened bytes) ≡ Ok (sessions_of branches))) }
    ensures accepted { OnOk result (IfSome (R.remaining (inner_of dump.old)) IsAccepted) }
    ensures refused { IfErr result (IsDumpEnd (R.remaining (inner_of dump.old))) }
    ensures failed { (result ≡ Err RunFault.Read) ↔ (has_failed dump.new ≡ true) }
    ensures bounded { ConsumesAtMost (R.remaining (inner_of dump.old))
        (R.remaining (inner_of dump.new)) (most_read (R.remaining (inner_of dump.old))) }
{
    let bytes = match read_dump(alloc, dump) {
        Ok(bytes) => bytes,
        Err(ReadFault::Failed) => return Err(RunFault::Read),
        Err(ReadFault::TooLarge) => return Err(RunFault::Dump(TOO_LARGE)),
        Err(ReadFault::OutOfMemory) => return Err(RunFault::OutOfMemory),
    };
    match open(alloc, bytes.as_slice()) {
        Ok(planner) => Ok(Branches::resume(alloc, planner)),
        Err(fault) => Err(open_fault(fault)),
    }
}

/// The fault of a dump that is longer than the limit.
const TOO_LARGE: DumpFault = DumpFault {
    offset: 0,
    kind: DumpFaultKind::TooLarge,
};

/// How a run ends on a dump that is not opened.
fn open_fault(fault: DumpFault) -> RunFault
    ensures end { (known : Option (List ℕ))
        → IfSome known (λ bytes. IsFirstFault fault (opened bytes))
        → IsDumpEnd known result }
    ensures read { result ≢ RunFault.Read }
{
    match fault.kind {
        DumpFaultKind::OutOfMemory => RunFault::OutOfMemory,
        _ => RunFault::Dump(fault),
    }
}

/// Reads a script whole.
pub(crate) fn read_script<A: Allocator + Copy, S: Read>(
    alloc: A,
    script: &mut Watched<S>,
) -> Result<Vec<u8, A>, RunFault>
    requires { has_failed script.old ≡ false }
    ensures whole { IfOk result (λ text. IsAll (S.remaining (inner_of script.old)) text.items) }
    ensures within { IfOk result (λ text. vec_len text ≤ longest_script) }
    ensures at_end { OnOk result (IsAtEnd (S.remaining (inner_of script.new))) }
    ensures ended { OnOk result (has_ended script.new ≡ true) }
    ensures fault { IfErr result
        (IsScriptEnd (IsLonger (S.remaining (inner_of script.old)) longest_script)) }
    ensures failed { (result ≡ Err RunFault.Read) ↔ (has_failed script.new ≡ true) }
    ensures bounded { ConsumesAtMost (S.remaining (inner_of script.old))
        (S.remaining (inner_of script.new)) (longest_script + 1) }
{
    match read_whole(alloc, script, SCRIPT_LIMIT) {
        Ok(text) => Ok(text),
        Err(ReadFault::Failed) => Err(RunFault::Read),
        Err(ReadFault::TooLarge) => Err(RunFault::TooLarge),
        Err(ReadFault::OutOfMemory) => Err(RunFault::OutOfMemory),
    }
}
