//! The classes of kinds of findings, and what each kind means.
ghost use Rattle.std.specs.Prelude.{◌≡◌};
ghost use Rattle.audit_report.specs.Meanings.{action_text, class_of, class_text, is_wrong, meaning_text};

use study_words::AuditKind;

/// Whether a kind of findings can make a table wrong.
#[derive(Clone, Copy, Debug, PartialEq, Eq)]
pub enum Class {
    /// Routers have or may have other routes than the planner.
    Wrong,
    /// It makes no table wrong.
    Note,
}

impl Class {
    /// The word for it.
    pub fn text(self) -> &'static str
        ensures { result.now ≡ class_text self }
    {
        match self {
            Class::Wrong => "wrong",
            Class::Note => "note",
        }
    }
}

/// The kinds with their classes, what each means, and what to do, handed to a macro.
macro_rules! meanings {
    ($take:ident $kind:tt) => {
        $take!($kind
            Nssa Wrong
                "type 7 LSAs are left out, so routes are missing"
                "do not trust routes of this area"
            AreaKind Wrong
                "bit E of its options does not fit the kind of the area: an NSSA, \
                or a dump with a wrong kind"
                "do not trust external routes of this area"
            VirtualLink Wrong
                "virtual links and transit areas are left out"
                "do not trust routes over the backbone"
            AreaMissing Wrong
                "a border router with one area: the others are not in the dump, or it lost them"
                "add captures of its other areas"
            AbrWithoutBackbone Wrong
                "by RFC 3509 (FRR, Cisco) it is no border router, by RFC 2328 it is one"
                "compare its table with the router's own"
            AbrWithoutBitB Wrong
                "it is in several areas and does not call itself a border router"
                "compare its table with the router's own"
            SplitArea Wrong
                "its parts see each other only by summaries that border routers make then"
                "add these by add-summary"
            SummaryRaised Wrong
                "a drained border router raises its summaries; refresh takes the raise away"
                "do not refresh"
            SummaryNotDue Wrong
                "a range, a filter, or an edit that has not reached it; refresh changes it"
                "refresh after edits; in the loaded database do not refresh"
            SummaryMissing Wrong
                "its originator announces it by RFC 2328, and refresh makes none"
                "add-summary after edits; in the loaded database a range or filter"
            Rfc1583 Wrong
                "with RFC1583Compatibility another route is taken"
                "look at the setting of the routers"
            ExternalWithoutBitE Wrong
                "no router uses it, since its originator's bit E is clear"
                "a router that announces externals sets bit E"
            UndescribedRouter Wrong
                "its router-LSA is not in the dump"
                "complete the capture"
            SeveralNetworks Wrong
                "a LAN in parts: which part has an address is unknown"
                "do not trust paths to it"
            DuplicateAddress Wrong
                "which router has the address is unknown"
                "correct the addresses"
            OwnExternal Note
                "table shows another way for a prefix that the router announces itself"
                "read routes, which says own"
            ForwardUnreached Note
                "no router uses it, since its forwarding address has no route"
                "look at the network of the address"
            OneWayLink Note
                "no path uses it (RFC 2328, 16.1)"
                "look whether the adjacency is down"
            UnequalCost Note
                "the ways to and from differ"
                "look whether this is meant"
            PointToMultipoint Note
                "table shows one hop for several neighbors"
                "read routes, which names each"
            Drained Note
                "all its links cost 65535, so little passes through it"
                "look whether it is still in maintenance"
            UnreachedRouter Note
                "no router of the area reaches it: it is down or cut off"
                "look whether it is up"
            OrphanLsa Note
                "its originator is not described, so nobody uses it"
                "it ages out"
            Opaque Note
                "nothing is calculated from it"
                "no action"
            MaxAge Note
                "it is being flushed, and no table uses it"
                "no action"
        )
    };
}

/// The class of a kind in the table.
macro_rules! class_in {
    ($kind:tt $($name:ident $class:ident $meaning:literal $action:literal)*) => {
        match $kind {
            $(AuditKind::$name => Class::$class),*
        }
    };
}

/// What a kind in the table means.
macro_rules! meaning_in {
    ($kind:tt $($name:ident $class:ident $meaning:literal $action:literal)*) => {
        match $kind {
            $(AuditKind::$name => $meaning),*
        }
    };
}

/// What to do about a kind in the table.
macro_rules! action_in {
    ($kind:tt $($name:ident $class:ident $meaning:literal $action:literal)*) => {
        match $kind {
            $(AuditKind::$name => $action),*
        }
    };
}

/// The class of a kind.
pub fn class_of(kind: AuditKind) -> Class
    ensures { result ≡ class_of kind }
{
    meanings!(class_in kind)
}

/// Whether a kind can make a table wrong.
pub fn is_wrong(kind: AuditKind) -> bool
    ensures { result ≡ is_wrong kind }
{
    matches!(class_of(kind), Class::Wrong)
}

/// What a finding of a kind means.
#[tactic(auto, unfolding(crate::specs::Meanings::meaning_text))]
pub fn meaning(kind: AuditKind) -> &'static str
    ensures { result.now ≡ meaning_text kind }
{
    meanings!(meaning_in kind)
}

/// What to do about findings of a kind.
#[tactic(auto, unfolding(crate::specs::Meanings::action_text))]
pub fn action(kind: AuditKind) -> &'static str
    ensures { result.now ≡ action_text kind }
{
    meanings!(action_in kind)
}
