//! Whole runs, with all that their callers see. These functions have no clauses, so that the prover
//! sees those of a run once, and not in each test.

ghost use Rattle.std.specs.Prelude.{◌≡◌, true, false, is_some};
ghost use Rattle.whole_run.specs.Streams.{has_any_failed};

use host_io::Watched;
use std::alloc::Allocator;
use std::io::{Read, Write};
use whole_run::{RunFault, Summary, run};

/// A reader or writer after a run, and whether it has failed.
#[derive(Drop)]
pub(super) struct Used<T> {
    /// The reader or writer.
    pub(super) stream: T,
    /// Whether one of its calls has failed.
    pub(super) failed: bool,
}

fn finished<T>(watched: Watched<T>) -> Used<T> {
    let failed = watched.failed();
    let stream = watched.into_inner();
    Used { stream, failed }
}

fn finished_given<T>(watched: Option<Watched<T>>) -> Used<T>
    requires { is_some watched ≡ true }
{
    match watched {
        Some(watched) => finished(watched),
        None => unreachable!(),
    }
}

/// The result of a run, and its readers and writers after it.
#[derive(Drop)]
pub(super) struct Outcome<R, S, W, D, E> {
    /// The counts of the lines, or why the run ended early.
    pub(super) result: Result<Summary, RunFault>,
    /// The reader of the dump.
    pub(super) dump: Used<R>,
    /// The reader of the script.
    pub(super) script: Used<S>,
    /// The writer of the replies.
    pub(super) replies: Used<W>,
    /// The writer of the dump that the script leaves.
    pub(super) out: Used<D>,
    /// The writer of the session that the script leaves.
    pub(super) save: Used<E>,
}

/// Runs a script on a dump, and takes the replies, and the dump and the session that it leaves:
/// what [`whole_run::run`] promises, for readers and writers that are moved in and out.
pub(super) fn run_whole<A: Allocator + Copy, R: Read, S: Read, W: Write, D: Write, E: Write>(
    alloc: A,
    dump: R,
    script: S,
    replies: W,
    out: D,
    save: E,
) -> Outcome<R, S, W, D, E> {
    let mut dump = Watched::new(dump);
    let mut script = Watched::new(script);
    let mut replies = Watched::new(replies);
    let mut out = Some(Watched::new(out));
    let mut save = Some(Watched::new(save));
    let result = run(
        alloc,
        &mut dump,
        &mut script,
        &mut replies,
        &mut out,
        &mut save,
    );
    Outcome {
        result,
        dump: finished(dump),
        script: finished(script),
        replies: finished(replies),
        out: finished_given(out),
        save: finished_given(save),
    }
}

/// The result of a run that leaves no dump and no session, and its readers and its writer after it.
#[derive(Drop)]
pub(super) struct Replied<R, S, W> {
    /// The counts of the lines, or why the run ended early.
    pub(super) result: Result<Summary, RunFault>,
    /// The reader of the dump.
    pub(super) dump: Used<R>,
    /// The reader of the script.
    pub(super) script: Used<S>,
    /// The writer of the replies.
    pub(super) replies: Used<W>,
}

/// Runs a script on a dump, and takes the replies alone: what [`whole_run::run`] promises where
/// no dump and no session is asked for.
pub(super) fn run_without_out<A: Allocator + Copy, R: Read, S: Read, W: Write>(
    alloc: A,
    dump: R,
    script: S,
    replies: W,
) -> Replied<R, S, W> {
    let mut dump = Watched::new(dump);
    let mut script = Watched::new(script);
    let mut replies = Watched::new(replies);
    let mut no_dump = None::<Watched<Vec<u8>>>;
    let mut unsaved = None::<Watched<Vec<u8>>>;
    let result = run(
        alloc,
        &mut dump,
        &mut script,
        &mut replies,
        &mut no_dump,
        &mut unsaved,
    );
    Replied {
        result,
        dump: finished(dump),
        script: finished(script),
        replies: finished(replies),
    }
}

/// A writer of a run, where one is given.
fn watched_given<T>(stream: Option<T>) -> Option<Watched<T>>
    ensures { has_any_failed result ≡ false }
{
    match stream {
        Some(stream) => Some(Watched::new(stream)),
        None => None,
    }
}

/// The result of a run, with writers of the dump and of the session where they are given.
pub(super) fn run_given<
    A: Allocator + Copy,
    R: Read + Drop,
    S: Read + Drop,
    W: Write + Drop,
    D: Write + Drop,
    E: Write + Drop,
>(
    alloc: A,
    dump: R,
    script: S,
    replies: W,
    out: Option<D>,
    save: Option<E>,
) -> Result<Summary, RunFault> {
    let mut dump = Watched::new(dump);
    let mut script = Watched::new(script);
    let mut replies = Watched::new(replies);
    let mut out = watched_given(out);
    let mut save = watched_given(save);
    run(
        alloc,
        &mut dump,
        &mut script,
        &mut replies,
        &mut out,
        &mut save,
    )
}
