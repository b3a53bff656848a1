//! The findings about LSAs that headers name.

ghost use Rattle.std.specs.Prelude.{IfOk};
ghost use Rattle.capture_report.specs.HeaderFindings.{AreHeaderFindings};

use crate::each::put_each;
use crate::newer::newer_lsas;
use crate::shown::unseen_lsas;
use findings::Finding;
use network_files::ParsedFile;
use std::alloc::{AllocError, Allocator};

/// What headers show to be missing: a finding for each LSA that a header names and of which no file
/// has an instance, and after these one for each LSA of which a header names a newer instance than
/// any that a file has (RFC 2328, 13.1, by sequence number, then by checksum). LSAs are in order of
/// scope and key, each once.
///
/// Headers stand in Database Description and Link State Acknowledgment packets (RFC 2328, A.3.3 and
/// A.3.6): a capture that began late may show the header of an LSA, and never the LSA. A header at
/// MaxAge names no LSA: it flushes it (RFC 2328, 14.1). One with DoNotAge and an age below MaxAge
/// does: see [`Header::is_at_max_age`](lsa_instances::Header::is_at_max_age). An LSA that was
/// announced again with a lower sequence number has no newer instance: the higher one is shown.
///
/// # Errors
///
/// Memory ran out.
pub fn header_findings<A: Allocator + Copy>(
    alloc: A,
    files: &[ParsedFile<A>],
) -> Result<Vec<Finding, A>, AllocError>
    ensures { IfOk result (λ findings. AreHeaderFindings files.now findings.items) }
{
    let unseen = unseen_lsas(alloc, files)?;
    let newer = newer_lsas(alloc, files)?;
    let mut findings = Vec::new(alloc);
    put_each(&mut findings, &unseen, |lsa| Finding::Unseen(lsa))?;
    put_each(&mut findings, &newer, |lsa| Finding::Newer(lsa))?;
    Ok(findings)
}
