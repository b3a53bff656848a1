//! Candidates for a route.

use area_candidates::Rule;
use lsa_names::LsaName;

/// What could give a router a route to a prefix.
#[derive(Clone, Copy, Debug, PartialEq, Eq)]
pub struct Candidate {
    /// The LSA.
    pub lsa: LsaName,
    /// The number of the link of a router-LSA, counted from 1.
    pub link: Option<u16>,
    /// The distance of the network, of the router of a stub link or of the area border router. Of
    /// an external candidate, the cost of the preferred way to its AS boundary router, or of the
    /// route to its forwarding address. `None` where a rule takes the candidate out before.
    pub distance: Option<u64>,
    /// The metric of the link or the LSA; 0 of a network.
    pub metric: u32,
    /// Why it is used or not.
    pub rule: Rule,
}
