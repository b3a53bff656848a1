//! What becomes of a link of a router-LSA.

use lsa_codec::{Addr, Link};

/// What becomes of a link where its router-LSA is rebuilt (RFC 2328, 12.4.1).
#[derive(Clone, Copy, Debug, PartialEq, Eq)]
pub enum LinkChange {
    /// It stays as it is.
    Stays,
    /// It is removed.
    Removed,
    /// It gets this metric. Its TOS metrics stay.
    Costs(u16),
    /// It gets this Link ID: the address of another Designated Router.
    LeadsTo(Addr),
    /// A stub link to the network with this number and this mask stands in its place, with its
    /// metric and without TOS metrics.
    StubOf(Addr, u32),
}

/// A link of a router-LSA, with what becomes of it.
#[derive(Clone, Copy, Debug, PartialEq, Eq)]
pub struct ChangedLink {
    /// The link.
    pub link: Link,
    /// What becomes of it.
    pub change: LinkChange,
}
