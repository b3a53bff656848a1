//! The LSAs that headers name, those that are shown, and which are named and not shown.

ghost use Rattle.std.specs.Prelude.{◌≡◌, ◌++◌, IfOk, OnOk, map};
ghost use Rattle.std.specs.List.{filter_map};
ghost use Rattle.lsa_instances.specs.Order.{place_cmp, place_of};
ghost use Rattle.capture_report.specs.Sets.{AreMissing};
ghost use Rattle.capture_report.specs.Unseen.{named_by, all_named, all_shown};

use crate::sets::missing;
use lsa_instances::{Header, Observation, Place};
use network_files::ParsedFile;
use std::alloc::{AllocError, Allocator};

/// The LSAs of which these are instances.
fn shown_in<A: Allocator + Copy>(
    alloc: A,
    observations: &[Observation<A>],
) -> Result<Vec<Place, A>, AllocError>
    ensures { IfOk result (λ lsas. lsas.items ≡ map place_of observations.now) }
{
    observations
        .iter()
        .map(|observation| observation.place())
        .collect(alloc)
}

/// The LSA, unless the header flushes it.
fn named_by(header: &Header) -> Option<Place>
    ensures { result ≡ named_by header.now }
{
    if header.is_at_max_age() {
        None
    } else {
        Some(header.place)
    }
}

/// The LSAs that these headers name.
fn named_in<A: Allocator + Copy>(alloc: A, headers: &[Header]) -> Result<Vec<Place, A>, AllocError>
    ensures { IfOk result (λ lsas. lsas.items ≡ filter_map named_by headers.now) }
{
    headers
        .iter()
        .filter_map(|header| named_by(header))
        .collect(alloc)
}

/// The LSAs that the headers of all files name, and those of which the files show instances, one
/// file after another.
fn all_places<A: Allocator + Copy>(
    alloc: A,
    files: &[ParsedFile<A>],
) -> Result<(Vec<Place, A>, Vec<Place, A>), AllocError>
    ensures { IfOk result (λ places. (places.0.items ≡ all_named files.now)
        × (places.1.items ≡ all_shown files.now)) }
{
    let mut named = Vec::new(alloc);
    let mut shown = Vec::new(alloc);
    for file in files {
        named.append(&mut named_in(alloc, &file.headers)?)?;
        shown.append(&mut shown_in(alloc, &file.observations)?)?;
    }
    Ok((named, shown))
}

/// The LSAs that the headers of the files name, and of which no file shows an instance, each once,
/// in order of scope and key. A header at MaxAge names no LSA; one with DoNotAge and an age below
/// MaxAge does: see [`Header::is_at_max_age`](lsa_instances::Header::is_at_max_age).
///
/// # Errors
///
/// Memory ran out.
pub(crate) fn unseen_lsas<A: Allocator + Copy>(
    alloc: A,
    files: &[ParsedFile<A>],
) -> Result<Vec<Place, A>, AllocError>
    ensures { IfOk result (λ lsas. AreMissing place_cmp
        (all_named files.now) (all_shown files.now) lsas.items) }
{
    let (named, shown) = all_places(alloc, files)?;
    missing(alloc, &named, &shown)
}
