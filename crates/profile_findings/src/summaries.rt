//! Summary-LSAs whose metrics a refresh would change.

ghost use Rattle.std.specs.Prelude.{◌≡◌, IfOk};
ghost use Rattle.std.specs.List.{filter_map};
ghost use Rattle.lsdb.specs.Slots.{lists_of};
ghost use Rattle.profile_findings.specs.Summaries.{finding_about, finding_at, summary_findings};

use audit_places::{Form, Place};
use audit_routes::{summary_not_due_places, summary_raised_places};
use findings::{Finding, ReportedLsa};
use lsa_names::LsaName;
use lsdb::Database;
use std::alloc::{AllocError, Allocator};

/// What metric a summary-LSA has that is not due.
#[derive(Clone, Copy, Debug)]
enum Metric {
    /// The raised metric of a drained border router.
    OfDrained,
    /// Another one.
    Other,
}

/// The finding about a summary-LSA.
fn finding_about(metric: Metric, name: LsaName) -> Finding
    ensures { result ≡ finding_about metric name }
{
    let lsa = ReportedLsa {
        area: name.area,
        key: name.key,
    };
    match metric {
        Metric::OfDrained => Finding::Raised(lsa),
        Metric::Other => Finding::NotDue(lsa),
    }
}

/// The finding about the summary-LSA at a place, if its metric is not the one that it is due.
fn finding_at<A: Allocator + Copy>(metric: Metric, place: &Place<A>) -> Option<Finding>
    ensures { result ≡ finding_at metric place.now }
{
    match place.form() {
        Form::Due { lsa, .. } => Some(finding_about(metric, *lsa)),
        _ => None,
    }
}

/// The findings about the summary-LSAs at some places.
fn findings_at<A: Allocator + Copy>(
    alloc: A,
    metric: Metric,
    places: &[Place<A>],
) -> Result<Vec<Finding, A>, AllocError>
    ensures { IfOk result (λ findings. findings.items ≡ filter_map (finding_at metric) places.now) }
{
    places
        .iter()
        .filter_map(|place| finding_at(metric, place))
        .collect(alloc)
}

/// A finding for each live summary-LSA of a border router that a refresh would give another metric
/// (RFC 2328, 12.4.3): first those with the raised metric of a drained router, then those with
/// another one, each by area and then by key. Address ranges, policies, virtual links and NSSA make
/// such LSAs. A summary-LSA of type 4 by which an AS boundary router announces itself is none of
/// them, since no table uses it.
///
/// # Errors
///
/// Memory ran out.
pub fn summary_findings<A: Allocator + Copy>(
    alloc: A,
    database: &Database<A>,
) -> Result<Vec<Finding, A>, AllocError>
    ensures { IfOk result (λ findings. findings.items ≡ summary_findings (lists_of database.now)) }
{
    let raised = summary_raised_places(alloc, database)?;
    let others = summary_not_due_places(alloc, database)?;
    let mut findings = findings_at(alloc, Metric::OfDrained, &raised)?;
    findings.append(&mut findings_at(alloc, Metric::Other, &others)?)?;
    Ok(findings)
}
