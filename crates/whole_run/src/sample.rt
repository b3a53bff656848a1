//! The built-in sample.

/// The database where no dump is named, 99 bytes: area 0.0.0.0 with routers 1.1.1.1 and 2.2.2.2, a
/// point-to-point link of cost 10 between them, and the stub network 10.2.0.0/16 of cost 5 at
/// 2.2.2.2.
pub const SAMPLE: &[u8] = &[
    // magic, version, one area: 0.0.0.0, ordinary, two LSAs
    0x4f, 0x53, 0x57, 0x50, 1, 1, 0, 0, 0, 0, 0, 0, 2,
    // the router-LSA of 1.1.1.1: its header, one link
    0x00, 0x01, 0x02, 0x01, 1, 1, 1, 1, 1, 1, 1, 1, 0x80, 0, 0, 1, 0xd5, 0x5a, 0, 0x24, 0, 0, 0, 1,
    2, 2, 2, 2, 10, 0, 0, 1, 1, 0, 0, 10,
    // the router-LSA of 2.2.2.2: its header, two links
    0x00, 0x01, 0x02, 0x01, 2, 2, 2, 2, 2, 2, 2, 2, 0x80, 0, 0, 1, 0x62, 0xa7, 0, 0x30, 0, 0, 0, 2,
    1, 1, 1, 1, 10, 0, 0, 2, 1, 0, 0, 10, 10, 2, 0, 0, 0xff, 0xff, 0, 0, 3, 0, 0, 5,
    // no LSAs of AS scope
    0, 0,
];
