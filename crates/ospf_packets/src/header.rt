//! The LSA headers of Database Description and Link State Acknowledgment packets (RFC 2328, A.3.3
//! and A.3.6).

ghost use Rattle.std.specs.Prelude.{◌≡◌, ◌≤◌, ◌++◌, length, OnOk};
ghost use Rattle.ospf_packets.specs.Headers.{header_in, whole_headers, left_over, parsed_headers, headers_after};

use crate::field::{u16_at, u32_at};
use crate::packet::lack;
use crate::update::{Flooded, LSA_HEADER};
use findings::Part;
use lsa_codec::{Addr, AreaId, Key, RouterId};
use lsa_instances::{Header, InstanceId, Place, Scope};
use std::alloc::{AllocError, Allocator};

/// The number of bytes of a Database Description packet before its LSA headers.
pub(crate) const BEFORE_HEADERS: usize = 32;

/// The LSA header at the front, of an LSA that is flooded in an area.
fn header_in(area: AreaId, bytes: &[u8]) -> Header
    requires { 20 ≤ length bytes.now }
    ensures { result ≡ header_in area bytes.now }
{
    let kind = bytes[3];
    let key = Key {
        kind,
        id: Addr(u32_at(bytes, 4)),
        adv: RouterId(u32_at(bytes, 8)),
    };
    Header {
        place: Place {
            scope: Scope::in_area(area, kind),
            key,
        },
        instance: InstanceId {
            sequence: u32_at(bytes, 12),
            checksum: u16_at(bytes, 16),
        },
        age: u16_at(bytes, 0),
    }
}

/// Adds the LSA headers that stand one after another, those that are whole.
fn parse_whole_headers<A: Allocator + Copy>(
    parsed: &mut Vec<Part<A>, A>,
    area: AreaId,
    bytes: &[u8],
) -> Result<(), AllocError>
    ensures { OnOk result (parsed.new.items ≡ parsed.old.items ++ whole_headers area bytes.now) }
{
    for index in 0..bytes.len() / LSA_HEADER {
        let header = header_in(area, &bytes[LSA_HEADER * index..]);
        parsed.push(Part::Header(header))?;
    }
    Ok(())
}

/// Adds the LSA headers that fill these bytes, and a warning where bytes are left over.
fn parse_headers<A: Allocator + Copy>(
    parsed: &mut Vec<Part<A>, A>,
    by: Flooded,
    bytes: &[u8],
) -> Result<(), AllocError>
    ensures { OnOk result (parsed.new.items ≡ parsed.old.items ++ parsed_headers by bytes.now) }
{
    parse_whole_headers(parsed, by.area, bytes)?;
    if bytes.len() % LSA_HEADER != 0 {
        parsed.push(Part::Warning(lack(by.whole)))?;
    }
    Ok(())
}

/// Adds what a packet contains whose LSA headers stand after this number of bytes.
pub(crate) fn parse_headers_after<A: Allocator + Copy>(
    parsed: &mut Vec<Part<A>, A>,
    by: Flooded,
    before: usize,
    packet: &[u8],
) -> Result<(), AllocError>
    ensures { OnOk result (parsed.new.items
        ≡ parsed.old.items ++ headers_after before by packet.now) }
{
    if packet.len() < before {
        parsed.push(Part::Warning(lack(by.whole)))?;
        return Ok(());
    }
    parse_headers(parsed, by, &packet[before..])
}
