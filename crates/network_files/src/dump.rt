//! The database that all files together make, and its dump.

ghost use Rattle.std.specs.Prelude.{◌≡◌, ◌++◌, IfOk, IfErr, OnOk};
ghost use Rattle.lsdb.specs.Slots.{lists_of};
ghost use Rattle.network_files.specs.Dumps.{observations_of, areas_of, IsDump, IsJoinFault, IsJoinedFrom};

use crate::parsed_file::ParsedFile;
use lsa_instances::{AreaReport, FlushedLsas, Observation};
use lsdb::Database;
use lsdb_merge::{JoinFault, join};
use std::alloc::{AllocError, Allocator, Global};

/// The database that all files together make, and its dump.
#[derive(Drop)]
pub struct JoinedFiles<A: Allocator = Global> {
    /// The database.
    pub database: Database<A>,
    /// Its dump.
    pub dump: Vec<u8, A>,
}

/// Adds copies of observations.
fn put_observations<A: Allocator + Copy>(
    alloc: A,
    all: &mut Vec<Observation<A>, A>,
    observations: &[Observation<A>],
) -> Result<(), AllocError>
    ensures { OnOk result (all.new.items ≡ all.old.items ++ observations.now) }
{
    for observation in observations {
        all.push(observation.clone_of(alloc)?)?;
    }
    Ok(())
}

/// The LSAs of all files. A copy of each is made.
fn observations_of<A: Allocator + Copy>(
    alloc: A,
    files: &[ParsedFile<A>],
) -> Result<Vec<Observation<A>, A>, AllocError>
    ensures { IfOk result (λ all. all.items ≡ observations_of files.now) }
{
    let mut all = Vec::new(alloc);
    for file in files {
        put_observations(alloc, &mut all, &file.observations)?;
    }
    Ok(all)
}

/// The reports of areas in all files, one file after another.
///
/// # Errors
///
/// Memory ran out.
pub fn areas_of<A: Allocator + Copy>(
    alloc: A,
    files: &[ParsedFile<A>],
) -> Result<Vec<AreaReport, A>, AllocError>
    ensures { IfOk result (λ all. all.items ≡ areas_of files.now) }
{
    let mut all = Vec::new(alloc);
    for file in files {
        all.extend_from_slice(&file.areas)?;
    }
    Ok(all)
}

/// The database that all files together make, and its dump. Its sections have the newest instance
/// of each LSA in the files; flushed LSAs are left out, or kept at MaxAge, as `flushed` says. Its
/// areas are those whose kind the files report and those that have LSAs.
///
/// # Errors
///
/// Those of [`join`].
pub fn join_files<A: Allocator + Copy>(
    alloc: A,
    flushed: FlushedLsas,
    files: &[ParsedFile<A>],
) -> Result<JoinedFiles<A>, JoinFault>
    ensures database { IfOk result
        (λ made. IsJoinedFrom flushed files.now (lists_of made.database)) }
    ensures dump { IfOk result (λ made. IsDump flushed files.now made.dump.items) }
    ensures fault { IfErr result (λ fault. IsJoinFault flushed files.now fault) }
{
    let observations = observations_of(alloc, files)?;
    let areas = areas_of(alloc, files)?;
    let database = join(alloc, flushed, observations, &areas)?;
    let dump = database.dump()?;
    Ok(JoinedFiles { database, dump })
}
