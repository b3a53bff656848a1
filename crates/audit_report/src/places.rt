//! The places of each kind.

ghost use Rattle.std.specs.Prelude.{◌≡◌, IfOk};
ghost use Rattle.lsdb.specs.Slots.{lists_of};
ghost use Rattle.audit_report.specs.Findings.{places_of};

use audit_links::{
    duplicate_address_places, one_way_link_places, point_to_multipoint_places, unequal_cost_places,
};
use audit_lsas::{
    area_kind_places, drained_places, external_without_bit_e_places, max_age_places, nssa_places,
    opaque_places, orphan_lsa_places, undescribed_router_places, virtual_link_places,
};
use audit_places::Place;
use audit_routes::{
    forward_unreached_places, own_external_places, rfc1583_places, summary_missing_places,
    summary_not_due_places, summary_raised_places,
};
use audit_topology::{
    abr_without_backbone_places, abr_without_bit_b_places, area_missing_places,
    several_networks_places, split_area_places, unreached_router_places,
};
use lsdb::Database;
use std::alloc::{AllocError, Allocator};
use study_words::AuditKind;

/// The places of a kind in a database that was loaded as another one, in order.
///
/// # Errors
///
/// Memory ran out.
#[tactic(auto, unfolding(crate::specs::Findings::places_of))]
pub fn places_of<A: Allocator + Copy>(
    alloc: A,
    loaded: &Database<A>,
    now: &Database<A>,
    kind: AuditKind,
) -> Result<Vec<Place<A>, A>, AllocError>
    ensures { IfOk result
        (λ places. places.items ≡ places_of (lists_of loaded.now) (lists_of now.now) kind) }
{
    match kind {
        AuditKind::Nssa => nssa_places(alloc, now),
        AuditKind::AreaKind => area_kind_places(alloc, now),
        AuditKind::VirtualLink => virtual_link_places(alloc, now),
        AuditKind::AreaMissing => area_missing_places(alloc, now),
        AuditKind::AbrWithoutBackbone => abr_without_backbone_places(alloc, now),
        AuditKind::AbrWithoutBitB => abr_without_bit_b_places(alloc, now),
        AuditKind::SplitArea => split_area_places(alloc, now),
        AuditKind::SummaryRaised => summary_raised_places(alloc, now),
        AuditKind::SummaryNotDue => summary_not_due_places(alloc, now),
        AuditKind::SummaryMissing => summary_missing_places(alloc, now),
        AuditKind::Rfc1583 => rfc1583_places(alloc, now),
        AuditKind::ExternalWithoutBitE => external_without_bit_e_places(alloc, now),
        AuditKind::UndescribedRouter => undescribed_router_places(alloc, loaded, now),
        AuditKind::SeveralNetworks => several_networks_places(alloc, now),
        AuditKind::DuplicateAddress => duplicate_address_places(alloc, now),
        AuditKind::OwnExternal => own_external_places(alloc, now),
        AuditKind::ForwardUnreached => forward_unreached_places(alloc, now),
        AuditKind::OneWayLink => one_way_link_places(alloc, now),
        AuditKind::UnequalCost => unequal_cost_places(alloc, now),
        AuditKind::PointToMultipoint => point_to_multipoint_places(alloc, now),
        AuditKind::Drained => drained_places(alloc, now),
        AuditKind::UnreachedRouter => unreached_router_places(alloc, now),
        AuditKind::OrphanLsa => orphan_lsa_places(alloc, now),
        AuditKind::Opaque => opaque_places(alloc, now),
        AuditKind::MaxAge => max_age_places(alloc, now),
    }
}
