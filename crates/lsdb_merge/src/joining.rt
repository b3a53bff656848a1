//! Observations joined into a database.

ghost use Rattle.std.specs.Prelude.{◌≡◌, ◌⊎◌, All, IfOk, IfErr, Some, map, List};
ghost use Rattle.forgotten_instances.specs.Forgotten.{remembered};
ghost use Rattle.lsa_instances.specs.Newest.{AreNewest};
ghost use Rattle.lsdb.specs.Lists.{Lists, IsDatabase};
ghost use Rattle.lsdb.specs.Slots.{lists_of};
ghost use Rattle.lsdb.specs.Text.{text};
ghost use Rattle.lsdb_merge.specs.Joining.{AreScopes, Joining, joined, section};
ghost use Rattle.lsdb_merge.specs.Limits.{fault_of};
ghost use Rattle.lsdb_merge.specs.steps.Scopes.{IsWide, HaveRisingKeys};
ghost use Rattle.lsdb_merge.specs.declared.fault.JoinFault.TheVariants.{OutOfMemory};

use crate::fault::JoinFault;
use crate::scopes::scopes;
use crate::section::{any_misplaced, text_of};
use forgotten_instances::remembered;
use lsa_instances::{
    AreaReport, FlushedLsas, Observation, Scope, keys_rise, newest, newest_in_any_order,
};
use lsdb::{Database, LONGEST_DUMP, MOST_AREAS, text_laws};
use std::alloc::{AllocError, Allocator};

/// The database whose sections have the newest instance of each LSA among the observations that are
/// not forgotten; flushed LSAs are left out, or kept at MaxAge, as `flushed` says. Its areas are
/// those that are reported and those that have LSAs. An area is a stub area where a report says so,
/// and else ordinary; the backbone is always ordinary.
///
/// # Errors
///
/// The first fault in the order of [`JoinFault`]; `OutOfMemory` may stand in place of any.
pub fn join<A: Allocator + Copy>(
    alloc: A,
    flushed: FlushedLsas,
    observations: Vec<Observation<A>, A>,
    areas: &[AreaReport],
) -> Result<Database<A>, JoinFault>
    ensures database { IfOk result (λ db. IsDatabase (lists_of db)) }
    ensures joined { IfOk result (λ db. (joining : Joining flushed observations.items areas.now)
        × (lists_of db ≡ joined joining)) }
    ensures fault { IfErr result (λ fault. (fault ≡ OutOfMemory)
        ⊎ ((joining : Joining flushed observations.items areas.now)
        × (fault_of joining.newest (joined joining) ≡ Some fault))) }
{
    keys_rise::<A>();
    let newest = newest_remembered(alloc, flushed, observations)?;
    let scopes = scopes(alloc, areas, &newest)?;
    database_of(alloc, areas, &newest, &scopes)
}

/// The newest instance of each LSA among the observations that are not forgotten.
fn newest_remembered<A: Allocator + Copy>(
    alloc: A,
    flushed: FlushedLsas,
    observations: Vec<Observation<A>, A>,
) -> Result<Vec<Observation<A>, A>, AllocError>
    ensures { IfOk result
        (λ newest. AreNewest flushed (remembered observations.items) newest.items) }
{
    newest_in_any_order::<A>();
    let known = remembered(alloc, observations)?;
    newest(alloc, flushed, known)
}

/// The database with a section for each scope.
fn database_of<A: Allocator + Copy>(
    alloc: A,
    areas: &[AreaReport],
    newest: &[Observation<A>],
    scopes: &[Scope],
) -> Result<Database<A>, JoinFault>
    requires scopes { AreScopes areas.now newest.now scopes.now }
    requires wide { All IsWide scopes.now }
    requires rising { HaveRisingKeys newest.now }
    ensures database { IfOk result (λ db. IsDatabase (lists_of db)) }
    ensures joined { IfOk result
        (λ db. lists_of db ≡ map (section areas.now newest.now) scopes.now) }
    ensures fault { IfErr result (λ fault. (fault ≡ OutOfMemory)
        ⊎ (fault_of newest.now (map (section areas.now newest.now) scopes.now) ≡ Some fault)) }
{
    text_laws();
    if any_misplaced(newest) {
        return Err(JoinFault::MisplacedLsa);
    }
    if usize::from(MOST_AREAS) + 1 < scopes.len() {
        return Err(JoinFault::TooManyAreas);
    }
    let text = text_of(alloc, areas, newest, scopes)?;
    if LONGEST_DUMP < text.len() {
        return Err(JoinFault::TooLong);
    }
    loaded(alloc, &text)
}

/// The database that the text is known to spell, byte for byte.
fn loaded<A: Allocator + Copy>(alloc: A, bytes: &[u8]) -> Result<Database<A>, JoinFault>
    requires { (db : Lists) × IsDatabase db × (bytes.now ≡ text db) }
    ensures database { IfOk result (λ db. IsDatabase (lists_of db)) }
    ensures spelled { IfOk result (λ db. bytes.now ≡ text (lists_of db)) }
    ensures fault { IfErr result (λ fault. fault ≡ OutOfMemory) }
{
    text_laws();
    match Database::load(alloc, bytes) {
        Ok(database) => Ok(database),
        Err(_) => Err(JoinFault::OutOfMemory),
    }
}
