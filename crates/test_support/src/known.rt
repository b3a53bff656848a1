//! Routers and databases that several crates are tested with.

ghost use Rattle.std.specs.Prelude.{◌≡◌, IfOk};
ghost use Rattle.test_support.specs.Known.{network_of_three};

use crate::link::{to_network, to_router};
use crate::list::LsaList;
use std::alloc::{AllocError, Global};

/// 1.1.1.1.
pub const R1: u32 = 0x0101_0101;

/// 2.2.2.2.
pub const R2: u32 = 0x0202_0202;

/// 3.3.3.3.
pub const R3: u32 = 0x0303_0303;

/// 4.4.4.4.
pub const R4: u32 = 0x0404_0404;

/// The mask 255.255.0.0.
pub const MASK_16: u32 = 0xffff_0000;

/// Area 0.0.0.0 with the router-LSAs of 1.1.1.1 and 2.2.2.2, joined by a link of cost 10, with Link
/// Data 10.0.0.1 and 10.0.0.2. The stub network 10.2.0.0/16 of 2.2.2.2 has cost 5.
pub const SAMPLE: &[u8] = &[
    0x4f, 0x53, 0x57, 0x50, 1, 1, 0, 0, 0, 0, 0, 0, 2, 0x00, 0x01, 0x02, 0x01, 1, 1, 1, 1, 1, 1, 1,
    1, 0x80, 0, 0, 1, 0xd5, 0x5a, 0, 0x24, 0, 0, 0, 1, 2, 2, 2, 2, 0x0a, 0, 0, 1, 1, 0, 0, 0x0a,
    0x00, 0x01, 0x02, 0x01, 2, 2, 2, 2, 2, 2, 2, 2, 0x80, 0, 0, 1, 0x62, 0xa7, 0, 0x30, 0, 0, 0, 2,
    1, 1, 1, 1, 0x0a, 0, 0, 2, 1, 0, 0, 0x0a, 0x0a, 2, 0, 0, 0xff, 0xff, 0, 0, 3, 0, 0, 5, 0, 0,
];

/// A dump in which the network 10.5.0.3 joins 1.1.1.1 and 3.3.3.3 at cost 10 and 4.4.4.4 at cost 5.
/// A link of cost 5 joins 1.1.1.1 and 4.4.4.4. The vertices are numbered in the order 1.1.1.1,
/// 3.3.3.3, 4.4.4.4, the network.
///
/// # Errors
///
/// Memory ran out.
#[tactic(auto, unfolding(crate::specs::Known::network_of_three))]
pub fn network_of_three(alloc: Global) -> Result<Vec<u8>, AllocError>
    ensures { IfOk result (λ dump. dump.items ≡ network_of_three) }
{
    let network = 0x0a05_0003;
    let first = [
        to_network(network, 0x0a05_0001, 10),
        to_router(R4, 0x0a00_0001, 5),
    ];
    let third = [to_network(network, 0x0a05_0003, 10)];
    let fourth = [
        to_router(R1, 0x0a00_0004, 5),
        to_network(network, 0x0a05_0004, 5),
    ];
    let mut area = LsaList::new(alloc);
    area.router(R1, &first)?;
    area.router(R3, &third)?;
    area.router(R4, &fourth)?;
    area.network(network, R3, &[R1, R3, R4])?;
    area.dump()
}
