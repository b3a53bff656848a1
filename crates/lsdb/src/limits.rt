//! How much a database holds.

/// The most areas.
pub const MOST_AREAS: u8 = 64;

/// The most LSAs of an area.
pub const MOST_LSAS_OF_AREA: u16 = 8192;

/// The most LSAs of AS scope.
pub const MOST_LSAS_OF_AS: u16 = 65_535;

/// The most bytes of a dump.
pub const LONGEST_DUMP: usize = 16_777_216;

/// The most bytes of the dump of a session, version 2.
pub const LONGEST_SESSION: usize = 17_825_792;
