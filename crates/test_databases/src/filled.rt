//! Dumps filled with opaque LSAs (RFC 5250), whose contents no edit reads.

ghost use Rattle.std.specs.Prelude.{◌≡◌, ◌-◌, IfOk, OnOk};
ghost use Rattle.test_databases.specs.Filled.{with_opaque, two_routers, area_bytes, as_list_bytes};

use std::alloc::{AllocError, Global};
use test_support::{Header, LsaList, R1, R2, dump_of, to_router};

/// The LS type of an opaque LSA of area scope.
const OF_AREA: u8 = 10;

/// The LS type of an opaque LSA of AS scope.
const OF_AS: u8 = 11;

/// Adds `count` opaque LSAs of 1.1.1.1, without bodies, each with a different Link State ID.
fn add_opaque(lsas: &mut LsaList, kind: u8, count: u16) -> Result<(), AllocError>
    ensures { OnOk result (lsas.new ≡ with_opaque kind count lsas.old) }
{
    for number in 0..count {
        let header = Header {
            age: 1,
            kind,
            id: 0x0400_0000 + u32::from(number),
            router: R1,
        };
        lsas.lsa(header, &[])?;
    }
    Ok(())
}

/// The router-LSAs of 1.1.1.1 and 2.2.2.2, which a link of cost 10 joins.
fn two_routers(alloc: Global) -> Result<LsaList, AllocError>
    ensures { IfOk result (λ lsas. lsas ≡ two_routers) }
{
    let mut lsas = LsaList::new(alloc);
    lsas.router(R1, &[to_router(R2, 0x0a00_0001, 10)])?;
    lsas.router(R2, &[to_router(R1, 0x0a00_0002, 10)])?;
    Ok(lsas)
}

/// The dump of area 0.0.0.0 with `lsas` LSAs, at least two: the router-LSAs of 1.1.1.1 and 2.2.2.2,
/// and opaque LSAs after them.
///
/// # Errors
///
/// Memory ran out.
pub fn area_of(alloc: Global, lsas: u16) -> Result<Vec<u8>, AllocError>
    ensures { IfOk result (λ dump. dump.items ≡ area_bytes lsas) }
{
    let mut area = two_routers(alloc)?;
    add_opaque(&mut area, OF_AREA, lsas.saturating_sub(2))?;
    area.dump()
}

/// The dump of area 0.0.0.0 with these two routers, and of `lsas` opaque LSAs of AS scope.
///
/// # Errors
///
/// Memory ran out.
pub fn as_list_of(alloc: Global, lsas: u16) -> Result<Vec<u8>, AllocError>
    ensures { IfOk result (λ dump. dump.items ≡ as_list_bytes lsas) }
{
    let area = two_routers(alloc)?;
    let mut as_lsas = LsaList::new(alloc);
    add_opaque(&mut as_lsas, OF_AS, lsas)?;
    dump_of(alloc, &[(0, area)], &as_lsas)
}
