//! The links of router-LSAs.

ghost use Rattle.std.specs.Prelude.{◌≡◌};
ghost use Rattle.test_support.specs.Links.{link_of, link_bytes};

/// A link of a router-LSA, without TOS metrics (RFC 2328, A.4.2).
#[derive(Clone, Copy, Debug)]
pub struct RouterLink {
    /// The type.
    pub kind: u8,
    /// The Link ID.
    pub id: u32,
    /// The Link Data.
    pub data: u32,
    /// The metric.
    pub metric: u16,
}

impl RouterLink {
    /// The bytes of the link.
    pub(crate) fn bytes(&self) -> [u8; 12]
        ensures { result ≡ link_bytes self.now }
    {
        let [i0, i1, i2, i3] = self.id.to_be_bytes();
        let [d0, d1, d2, d3] = self.data.to_be_bytes();
        let [high, low] = self.metric.to_be_bytes();
        [i0, i1, i2, i3, d0, d1, d2, d3, self.kind, 0, high, low]
    }
}

/// A point-to-point link to a router, with the address of the interface.
pub fn to_router(router: u32, data: u32, metric: u16) -> RouterLink
    ensures { result ≡ link_of 1 router «data» metric }
{
    RouterLink {
        kind: 1,
        id: router,
        data,
        metric,
    }
}

/// A link to the transit network with this Designated Router's address, with the address of the
/// interface.
pub fn to_network(address: u32, data: u32, metric: u16) -> RouterLink
    ensures { result ≡ link_of 2 address «data» metric }
{
    RouterLink {
        kind: 2,
        id: address,
        data,
        metric,
    }
}

/// A link to a stub network.
pub fn to_stub(number: u32, mask: u32, metric: u16) -> RouterLink
    ensures { result ≡ link_of 3 number mask metric }
{
    RouterLink {
        kind: 3,
        id: number,
        data: mask,
        metric,
    }
}
