//! LS types besides those that the planner reads.

/// The LS type of NSSA-LSAs (RFC 3101, 2.2).
pub const NSSA_LSA: u8 = 7;

/// The LS type of opaque LSAs of link scope (RFC 5250, 3).
pub const LINK_OPAQUE_LSA: u8 = 9;

/// The LS type of opaque LSAs of area scope (RFC 5250, 3).
pub const AREA_OPAQUE_LSA: u8 = 10;
