//! Kinds of changes.

use lsa_codec::Prefix;

/// What differs for a prefix between the entry that a router had and the one that it has.
#[derive(Clone, Copy, Debug, PartialEq, Eq)]
pub enum Change {
    /// There was an entry, and there is none.
    Missing,
    /// There was no entry, and there is one.
    Gained,
    /// They are of different kinds, so that neither is cheaper.
    OtherKind,
    /// They are of one kind, and the present one costs more. Of external routes with a metric of
    /// type 2 that metric counts before the cost (RFC 2328, 16.4).
    Costlier,
    /// They are of one kind, and the present one costs less.
    Cheaper,
    /// They are of one kind and cost the same, and differ in the area, in the next hops, or in the
    /// routers that these lead to.
    Moved,
}

/// A prefix, and what differs for it.
#[derive(Clone, Copy, Debug, PartialEq, Eq)]
pub struct PrefixChange {
    /// The prefix.
    pub net: Prefix,
    /// What differs.
    pub change: Change,
}
