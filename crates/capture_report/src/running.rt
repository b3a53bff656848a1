//! The whole run: files are read, and the dump that they make is written.

ghost use Rattle.std.specs.Prelude.{◌≡◌, ◌≢◌, ◌↔◌, ℕ, List, All, IfErr, IfOk, false, true};
ghost use Rattle.std.specs.Io.KnownBytes.{Appends};
ghost use Rattle.host_io.specs.Watched.{inner_of, has_failed};
ghost use Rattle.lsdb.specs.Slots.{lists_of};
ghost use Rattle.network_files.specs.Dumps.{IsDump, IsJoinedFrom};
ghost use Rattle.capture_report.specs.Runs.{AreParsed, IsDumpEnd, MayEndRun, known};

use crate::fault::RunFault;
use crate::input::read_files;
use host_io::{Watched, write_and_flush};
use lsa_instances::FlushedLsas;
use lsdb::Database;
use lsdb_merge::JoinFault;
use network_files::{JoinedFiles, ParsedFile, join_files};
use std::alloc::{Allocator, Global};
use std::io::{Read, Write};

/// What a run made of its files.
#[derive(Drop)]
pub struct NetworkDump<A: Allocator = Global> {
    /// What each file contains, in the order of the files.
    pub files: Vec<ParsedFile<A>, A>,
    /// The database that all of them make, whose dump was written.
    pub database: Database<A>,
}

/// The database that all files together make, and its dump.
fn joined<A: Allocator + Copy>(
    alloc: A,
    flushed: FlushedLsas,
    parsed: &[ParsedFile<A>],
) -> Result<JoinedFiles<A>, RunFault>
    ensures database { IfOk result
        (λ made. IsJoinedFrom flushed parsed.now (lists_of made.database)) }
    ensures dump { IfOk result (λ made. IsDump flushed parsed.now made.dump.items) }
    ensures fault { IfErr result (IsDumpEnd flushed parsed.now) }
{
    match join_files(alloc, flushed, parsed) {
        Ok(made) => Ok(made),
        Err(JoinFault::OutOfMemory) => Err(RunFault::OutOfMemory),
        Err(fault) => Err(RunFault::Join(fault)),
    }
}

/// Reads the files, one after another, joins what they contain, and writes the dump of the database
/// to `out`; flushed LSAs are left out, or kept at MaxAge, as `flushed` says. The answer is what
/// each file contains, and the database.
///
/// # Errors
///
/// Memory ran out, the writer failed, or the first of these: a file that cannot be read, is too
/// long or is refused, in the order of the files; and then why the files make no database. Nothing
/// is written before all files are read and joined.
pub fn run<A: Allocator + Copy, R: Read, W: Write>(
    alloc: A,
    flushed: FlushedLsas,
    files: &mut [Watched<R>],
    out: &mut Watched<W>,
) -> Result<NetworkDump<A>, RunFault>
    requires files_open { All (λ file. has_failed file ≡ false) files.old }
    requires out_open { has_failed out.old ≡ false }

    // What is written, where the bytes of the files are known.
    ensures parsed { IfOk result
        (λ made. AreParsed (known R.remaining files.old) made.files.items) }
    ensures database { IfOk result
        (λ made. IsJoinedFrom flushed made.files.items (lists_of made.database)) }
    ensures dump { IfOk result (λ made. (dump : List ℕ) × (IsDump flushed made.files.items dump
        × Appends (W.contents (inner_of out.old)) (W.contents (inner_of out.new)) dump)) }

    // When each fault comes.
    ensures faults { IfErr result (MayEndRun A flushed (known R.remaining files.old)) }
    ensures read { ((k : ℕ) → result ≢ Err (RunFault.Read k))
        → All (λ file. has_failed file ≡ false) files.new }
    ensures write { (result ≡ Err RunFault.Write) ↔ (has_failed out.new ≡ true) }

    // What is left alone.
    ensures untouched { IfErr result (λ fault. fault ≢ RunFault.Write → out.new ≡ out.old) }
{
    let parsed = read_files(alloc, files)?;
    let made = joined(alloc, flushed, &parsed)?;
    write_and_flush(out, &made.dump)?;
    Ok(NetworkDump {
        files: parsed,
        database: made.database,
    })
}
