//! LS types: what kind an LSA is of (RFC 2328, 12.1.3).

/// The LS type of router-LSAs (RFC 2328, A.4.2).
pub const ROUTER_LSA: u8 = 1;

/// The LS type of network-LSAs (RFC 2328, A.4.3).
pub const NETWORK_LSA: u8 = 2;

/// The LS type of summary-LSAs for networks (RFC 2328, A.4.4).
pub const SUMMARY_LSA: u8 = 3;

/// The LS type of summary-LSAs for AS boundary routers (RFC 2328, A.4.4).
pub const ASBR_SUMMARY_LSA: u8 = 4;

/// The LS type of AS-external-LSAs (RFC 2328, A.4.5).
pub const EXTERNAL_LSA: u8 = 5;

/// The LS type of opaque LSAs of AS scope (RFC 5250, 3).
pub const AS_OPAQUE_LSA: u8 = 11;
