//! Routers with the prefixes for which they originate LSAs.

ghost use Rattle.std.specs.Prelude.{◌≡◌};
ghost use Rattle.lsdb.specs.PrefixSlots.{origin_of, prefix_of};

use lsa_codec::{Addr, Lsa, Prefix, RouterId};
use std::alloc::Allocator;

/// A router, and a prefix for which it originated LSAs.
#[derive(Clone, Copy, Debug, PartialEq, Eq, PartialOrd, Ord)]
pub struct Origin {
    /// The Advertising Router of the LSAs.
    pub adv: RouterId,
    /// The address of the prefix; its bits past the mask are 0.
    pub network: Addr,
    /// The length of the mask of the prefix, 0 to 32.
    pub mask_length: u8,
}

impl Origin {
    /// This router and this prefix.
    pub(crate) fn new(router: RouterId, prefix: Prefix) -> Origin
        ensures { result ≡ origin_of router prefix }
    {
        Origin {
            adv: router,
            network: prefix.addr(),
            mask_length: prefix.len(),
        }
    }
}

/// The prefix of a summary-LSA of type 3 or of an AS-external-LSA (RFC 2328, 12.4.3, 12.4.4).
/// Others have none.
pub fn prefix_of<A: Allocator + Copy>(lsa: &Lsa<A>) -> Option<Prefix>
    ensures { result ≡ prefix_of lsa.now }
{
    if let Some(summary) = lsa.summary() {
        return summary.net();
    }
    let Some(external) = lsa.external() else {
        return None;
    };
    Some(external.net())
}
