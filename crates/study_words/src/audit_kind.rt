//! The kinds of audit findings.
#![tactic(auto, unfolding(crate::specs::Written::written))]

use crate::word::{Word, list_of, text_of};

/// A kind of finding of `audit`: what the answers may not be trusted for.
#[derive(Clone, Copy, Debug, PartialEq, Eq)]
pub enum AuditKind {
    /// Type 7 LSAs, which are left out (RFC 3101).
    Nssa,
    /// Bit E of the options of a router-LSA does not fit the kind of the area.
    AreaKind,
    /// Virtual links and transit areas, which are left out (RFC 2328, 15).
    VirtualLink,
    /// A border router with one area.
    AreaMissing,
    /// A border router without the backbone (RFC 3509).
    AbrWithoutBackbone,
    /// A router in several areas without bit B.
    AbrWithoutBitB,
    /// An area in parts.
    SplitArea,
    /// Summaries whose metrics a drained border router raises.
    SummaryRaised,
    /// Summaries that are not due (RFC 2328, 12.4.3).
    SummaryNotDue,
    /// Summaries that are due and are not there (RFC 2328, 12.4.3).
    SummaryMissing,
    /// Routes that depend on RFC1583Compatibility (RFC 2328, 16.4.1).
    Rfc1583,
    /// External prefixes of a router without bit E.
    ExternalWithoutBitE,
    /// A router whose router-LSA is not in the database.
    UndescribedRouter,
    /// Several networks of one prefix.
    SeveralNetworks,
    /// An interface address of several routers.
    DuplicateAddress,
    /// A prefix that the router announces itself, for which its table shows another way.
    OwnExternal,
    /// A forwarding address without a route.
    ForwardUnreached,
    /// A link without a link back (RFC 2328, 16.1).
    OneWayLink,
    /// A link whose two ends have different metrics.
    UnequalCost,
    /// An interface with several neighbors, one hop of a table.
    PointToMultipoint,
    /// A router whose links all have the greatest metric (RFC 6987).
    Drained,
    /// A router without an edge in its area.
    UnreachedRouter,
    /// LSAs of a router that is not described.
    OrphanLsa,
    /// Opaque LSAs, from which nothing is calculated (RFC 5250).
    Opaque,
    /// LSAs that are being flushed (RFC 2328, 14).
    MaxAge,
}

/// The words in their order and how each is written, handed to a macro.
macro_rules! audit_kinds {
    ($take:ident $($word:tt)?) => {
        $take!($($word)? AuditKind
            Nssa "nssa"
            AreaKind "area-kind"
            VirtualLink "virtual-link"
            AreaMissing "area-missing"
            AbrWithoutBackbone "abr-without-backbone"
            AbrWithoutBitB "abr-without-bit-b"
            SplitArea "split-area"
            SummaryRaised "summary-raised"
            SummaryNotDue "summary-not-due"
            SummaryMissing "summary-missing"
            Rfc1583 "rfc1583"
            ExternalWithoutBitE "external-without-bit-e"
            UndescribedRouter "undescribed-router"
            SeveralNetworks "several-networks"
            DuplicateAddress "duplicate-address"
            OwnExternal "own-external"
            ForwardUnreached "forward-unreached"
            OneWayLink "one-way-link"
            UnequalCost "unequal-cost"
            PointToMultipoint "point-to-multipoint"
            Drained "drained"
            UnreachedRouter "unreached-router"
            OrphanLsa "orphan-lsa"
            Opaque "opaque"
            MaxAge "max-age"
        )
    };
}

impl Word for AuditKind {
    ghost use Rattle.study_words.specs.AuditKinds.{audit_kind_text, audit_kinds};

    ghost all = { audit_kinds };

    ghost spelled = { audit_kind_text };

    fn all() -> &'static [AuditKind] {
        audit_kinds!(list_of)
    }

    fn text(self) -> &'static str {
        audit_kinds!(text_of self)
    }
}
