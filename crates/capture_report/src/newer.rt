//! LSAs of which a header names a newer instance than any that is shown.

ghost use Rattle.std.specs.Prelude.{◌≡◌, ◌++◌, List, Some, IfOk, OnOk, map};
ghost use Rattle.std.specs.BTreeMap.{get, Updates};
ghost use Rattle.std.specs.List.{filter_map};
ghost use Rattle.capture_report.specs.Newer.{AreNewer, Instance, headers_of, of_observation, shown_of};
ghost use Rattle.capture_report.specs.steps.Newest.{AreNewest, all_newer, is_newer_by, is_over_some};
ghost use Rattle.capture_report.specs.steps.Newest.{newer_by, newest_with};
ghost use Rattle.capture_report.specs.steps.PlaceOrder.{derived_cmp};

use crate::sets::once;
use lsa_instances::{Header, InstanceId, Observation, Place, compare_instance_ids};
use network_files::ParsedFile;
use std::alloc::{AllocError, Allocator};
use std::collections::BTreeMap;

/// The newest instance that is shown of each LSA.
type Newest<A> = BTreeMap<Place, InstanceId, A>;

/// The LSA that is seen, and which instance of it.
fn of_observation<A: Allocator + Copy>(observation: &Observation<A>) -> (Place, InstanceId)
    ensures { result ≡ of_observation observation.now }
{
    (observation.place(), InstanceId::of(&observation.lsa))
}

/// Adds an instance that is shown.
fn put_shown<A: Allocator + Copy>(
    newest: &mut Newest<A>,
    lsa: Place,
    instance: InstanceId,
) -> Result<(), AllocError>
    ensures { OnOk result (Updates derived_cmp newest.old newest.new lsa
        (Some (newest_with (get derived_cmp newest.old lsa) instance))) }
{
    let newest_instance = match newest.get(&lsa) {
        Some(known) if compare_instance_ids(*known, instance).is_gt() => *known,
        _ => instance,
    };
    newest.insert(lsa, newest_instance)?;
    Ok(())
}

/// Adds the instances that a file shows.
fn put_observations<A: Allocator + Copy>(
    newest: &mut Newest<A>,
    observations: &[Observation<A>],
) -> Result<(), AllocError>
    ensures { OnOk result ((shown : List Instance) → AreNewest shown newest.old
        → AreNewest (shown ++ map of_observation observations.now) newest.new) }
{
    for observation in observations {
        let (lsa, instance) = of_observation(observation);
        put_shown(newest, lsa, instance)?;
    }
    Ok(())
}

/// The newest instance that the files show of each LSA.
fn newest_shown<A: Allocator + Copy>(
    alloc: A,
    files: &[ParsedFile<A>],
) -> Result<Newest<A>, AllocError>
    ensures { IfOk result (AreNewest (shown_of files.now)) }
{
    let mut newest = BTreeMap::new(alloc);
    for file in files {
        put_observations(&mut newest, &file.observations)?;
    }
    Ok(newest)
}

/// Whether an instance of the LSA is shown, and the newest of them is older than this one.
fn is_over_some<A: Allocator + Copy>(newest: &Newest<A>, lsa: Place, instance: InstanceId) -> bool
    ensures { result ≡ is_over_some (get derived_cmp newest.now lsa) instance }
{
    match newest.get(&lsa) {
        Some(shown) => compare_instance_ids(*shown, instance).is_lt(),
        None => false,
    }
}

/// Whether a header is below MaxAge, an instance of its LSA is shown, and all that are shown are
/// older.
fn is_newer_by<A: Allocator + Copy>(newest: &Newest<A>, header: &Header) -> bool
    ensures { result ≡ is_newer_by (get derived_cmp newest.now) header.now }
{
    if header.is_at_max_age() {
        false
    } else {
        is_over_some(newest, header.place, header.instance)
    }
}

/// The LSA of a header that is newer than all that is shown of it.
fn newer_by<A: Allocator + Copy>(newest: &Newest<A>, header: &Header) -> Option<Place>
    ensures { result ≡ newer_by (get derived_cmp newest.now) header.now }
{
    if is_newer_by(newest, header) {
        Some(header.place)
    } else {
        None
    }
}

/// The LSAs of which these headers are newer than all that is shown.
fn newer_in<A: Allocator + Copy>(
    alloc: A,
    newest: &Newest<A>,
    headers: &[Header],
) -> Result<Vec<Place, A>, AllocError>
    ensures { IfOk result (λ lsas. lsas.items
        ≡ filter_map (newer_by (get derived_cmp newest.now)) headers.now) }
{
    headers
        .iter()
        .filter_map(|header| newer_by(newest, header))
        .collect(alloc)
}

/// The LSAs of which headers of the files are newer than all that is shown, one file after another.
fn all_newer<A: Allocator + Copy>(
    alloc: A,
    newest: &Newest<A>,
    files: &[ParsedFile<A>],
) -> Result<Vec<Place, A>, AllocError>
    ensures { IfOk result (λ lsas. lsas.items ≡ all_newer (get derived_cmp newest.now) files.now) }
{
    let mut lsas = Vec::new(alloc);
    for file in files {
        lsas.append(&mut newer_in(alloc, newest, &file.headers)?)?;
    }
    Ok(lsas)
}

/// The LSAs of which the files show instances, and a header below MaxAge that is newer than each of
/// these (RFC 2328, 13.1, by sequence number, then by checksum), each once, in order of scope and
/// key. An LSA that was announced again with a lower sequence number is not one of them: the higher
/// one is shown. A header at MaxAge names no LSA: it flushes it (RFC 2328, 14.1).
///
/// # Errors
///
/// Memory ran out.
pub(crate) fn newer_lsas<A: Allocator + Copy>(
    alloc: A,
    files: &[ParsedFile<A>],
) -> Result<Vec<Place, A>, AllocError>
    ensures { IfOk result (λ lsas. AreNewer (headers_of files.now) (shown_of files.now)
        lsas.items) }
{
    let newest = newest_shown(alloc, files)?;
    let lsas = all_newer(alloc, &newest, files)?;
    once(alloc, &lsas)
}
