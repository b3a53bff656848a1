//! LSAs and dumps that are made from fields.

use std::test::*;
use test_support::{LsaList, MASK_16, R1, R2, R3, SAMPLE, dump_of, to_router, to_stub};

/// The dump of area 0.0.0.0 with the network-LSA of 10.5.0.3 by 3.3.3.3, which lists 1.1.1.1 and
/// its originator.
pub(super) const NETWORK_DUMP: &[u8] = &[
    0x4f, 0x53, 0x57, 0x50, 0x01, 0x01, 0x00, 0x00, 0x00, 0x00, 0x00, 0x00, 0x01, 0x00, 0x01, 0x02,
    0x02, 0x0a, 0x05, 0x00, 0x03, 0x03, 0x03, 0x03, 0x03, 0x80, 0x00, 0x00, 0x01, 0x03, 0x29, 0x00,
    0x20, 0xff, 0xff, 0x00, 0x00, 0x01, 0x01, 0x01, 0x01, 0x03, 0x03, 0x03, 0x03, 0x00, 0x00,
];

#[test]
fn makes_the_sample(rt: HostRuntime) -> Result<(), Fail> {
    let far = [
        to_router(R1, 0x0a00_0002, 10),
        to_stub(0x0a02_0000, MASK_16, 5),
    ];
    let mut area = LsaList::new(rt.alloc());
    area.router(R1, &[to_router(R2, 0x0a00_0001, 10)])?;
    area.router(R2, &far)?;
    assert_eq!(rt; area.dump()?.as_slice(), SAMPLE);
    let areas = [(0, area)];
    let none = LsaList::new(rt.alloc());
    let dump = dump_of(rt.alloc(), &areas, &none)?;
    assert_eq!(rt; dump.as_slice(), SAMPLE);
    Ok(())
}

#[test]
fn makes_a_network(rt: HostRuntime) -> Result<(), Fail> {
    let mut area = LsaList::new(rt.alloc());
    area.network(0x0a05_0003, R3, &[R1, R3])?;
    assert_eq!(rt; area.dump()?.as_slice(), NETWORK_DUMP);
    Ok(())
}
