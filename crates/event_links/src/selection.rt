//! Which links an event changes, and how.

use crate::link_end::LinkEnd;
use lsa_codec::{Addr, RouterId};
use lsa_remaking::LinkChange;

/// Links of routers, in all areas. With each point-to-point link goes the stub link of its
/// interface.
#[derive(Clone, Copy)]
pub enum Selection {
    /// The point-to-point links between two routers, at both ends.
    Between(RouterId, RouterId),
    /// The point-to-point link of interfaces with an address, at both ends.
    OneLink(LinkEnd),
    /// The point-to-point links of the first router to the second, at the end of the first.
    Towards(RouterId, RouterId),
    /// The links of a router to routers and transit networks whose interface has this address.
    AtAddress(RouterId, Addr),
    /// The links of a router to stub networks that have this address and this mask, but for those
    /// of point-to-point interfaces.
    StubsAt(RouterId, Addr, u32),
    /// The links of a router to routers and transit networks.
    ToOthers(RouterId),
}

/// The links that an event changes, and how.
#[derive(Clone, Copy)]
pub struct LinkEdit {
    /// The links.
    pub selection: Selection,
    /// How each of them changes.
    pub change: LinkChange,
}
