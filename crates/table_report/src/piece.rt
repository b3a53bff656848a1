//! The pieces of lines: numbers, addresses, prefixes and hops.
//!
//! A piece is written into a buffer on the stack, from its end to its start, and then added to a
//! text at once. A function that writes puts its piece before what stands in the buffer from `end`
//! on, and returns where the piece starts.

ghost use Rattle.std.specs.Prelude.{◌≡◌, ◌+◌, ◌-◌, ◌<◌, ◌≤◌, ◌∷◌, ◌++◌, [], IsAscii, OnOk, codes, decimal, drop, length, replicate};
ghost use Rattle.std.specs.String.{string_bytes};
ghost use Rattle.lsa_codec.specs.Spelling.{address_text, prefix_text};
ghost use Rattle.next_hops.specs.Hop.{hop_text};
ghost use Rattle.table_report.specs.Texts.{area_text, kind_text};

use area_routes::PathType;
use itoa::write_digits;
use lsa_codec::{Addr, AreaId, Prefix};
use next_hops::Hop;
use std::alloc::{AllocError, Allocator};

/// How many bytes a buffer has: more than any piece.
pub(crate) const ROOM: usize = 128;

/// The end of a buffer, after which nothing stands.
pub(crate) fn end_of(buffer: &[u8; ROOM]) -> usize
    ensures end { result ≡ 128 }
    ensures nothing { drop result buffer.now ≡ [] }
    ensures ascii { IsAscii (drop result buffer.now) }
{
    buffer.len()
}

/// Writes a character.
pub(crate) fn write_character(character: u8, buffer: &mut [u8; ROOM], end: usize) -> usize
    requires room { (1 ≤ end) × (end ≤ 128) }
    requires ascii { character < 128 }
    ensures start { result + 1 ≡ end }
    ensures written { drop result buffer.new ≡ character ∷ drop end buffer.old }
    ensures ascii { IsAscii (drop end buffer.old) → IsAscii (drop result buffer.new) }
{
    buffer[end - 1] = character;
    end - 1
}

/// Each byte as a number, after the dots that make it four characters.
static BYTES: [u8; 1024] = *b"\
    ...0...1...2...3...4...5...6...7...8...9\
    ..10..11..12..13..14..15..16..17..18..19\
    ..20..21..22..23..24..25..26..27..28..29\
    ..30..31..32..33..34..35..36..37..38..39\
    ..40..41..42..43..44..45..46..47..48..49\
    ..50..51..52..53..54..55..56..57..58..59\
    ..60..61..62..63..64..65..66..67..68..69\
    ..70..71..72..73..74..75..76..77..78..79\
    ..80..81..82..83..84..85..86..87..88..89\
    ..90..91..92..93..94..95..96..97..98..99\
    .100.101.102.103.104.105.106.107.108.109\
    .110.111.112.113.114.115.116.117.118.119\
    .120.121.122.123.124.125.126.127.128.129\
    .130.131.132.133.134.135.136.137.138.139\
    .140.141.142.143.144.145.146.147.148.149\
    .150.151.152.153.154.155.156.157.158.159\
    .160.161.162.163.164.165.166.167.168.169\
    .170.171.172.173.174.175.176.177.178.179\
    .180.181.182.183.184.185.186.187.188.189\
    .190.191.192.193.194.195.196.197.198.199\
    .200.201.202.203.204.205.206.207.208.209\
    .210.211.212.213.214.215.216.217.218.219\
    .220.221.222.223.224.225.226.227.228.229\
    .230.231.232.233.234.235.236.237.238.239\
    .240.241.242.243.244.245.246.247.248.249\
    .250.251.252.253.254.255";

/// The text of a byte as a number, after the dots that make it four characters.
fn dotted(byte: u8) -> &'static [u8]
    ensures { result.now ≡ replicate (4 - length (decimal byte)) 46 ++ decimal byte }
{
    let place = 4 * usize::from(byte);
    &BYTES[place..place + 4]
}

/// Writes a character, and after it a byte as a number.
fn write_marked(mark: u8, byte: u8, buffer: &mut [u8; ROOM], end: usize) -> usize
    requires room { (4 ≤ end) × (end ≤ 128) }
    requires ascii { mark < 128 }
    ensures start { (result + 2 ≤ end) × (end ≤ result + 4) }
    ensures written { drop result buffer.new ≡ mark ∷ decimal byte ++ drop end buffer.old }
    ensures ascii { IsAscii (drop end buffer.old) → IsAscii (drop result buffer.new) }
{
    buffer[end - 4..end].copy_from_slice(dotted(byte));
    let start = end - 2 - usize::from(byte >= 10) - usize::from(byte >= 100);
    buffer[start] = mark;
    start
}

/// Writes a byte as a number.
fn write_byte(byte: u8, buffer: &mut [u8; ROOM], end: usize) -> usize
    requires { (4 ≤ end) × (end ≤ 128) }
    ensures start { (result ≤ end) × (end ≤ result + 3) }
    ensures written { drop result buffer.new ≡ decimal byte ++ drop end buffer.old }
    ensures ascii { IsAscii (drop end buffer.old) → IsAscii (drop result buffer.new) }
{
    write_marked(b'.', byte, buffer, end) + 1
}

/// Writes a space and a number. Most numbers are as small as a byte.
fn write_number(number: u64, buffer: &mut [u8; ROOM], end: usize) -> usize
    requires { (21 ≤ end) × (end ≤ 128) }
    ensures start { (result ≤ end) × (end ≤ result + 21) }
    ensures written { drop result buffer.new ≡ codes " " ++ decimal number ++ drop end buffer.old }
    ensures ascii { IsAscii (drop end buffer.old) → IsAscii (drop result buffer.new) }
{
    if number < 256 {
        return write_marked(b' ', number as u8, buffer, end);
    }
    let start = write_digits(number, buffer, end);
    write_character(b' ', buffer, start)
}

/// Writes a word.
fn write_word(word: &str, buffer: &mut [u8; ROOM], end: usize) -> usize
    requires room { (length word.now ≤ end) × (end ≤ 128) }
    requires ascii { IsAscii word.now }
    ensures start { result + length word.now ≡ end }
    ensures written { drop result buffer.new ≡ word.now ++ drop end buffer.old }
    ensures ascii { IsAscii (drop end buffer.old) → IsAscii (drop result buffer.new) }
{
    let start = end - word.len();
    buffer[start..end].copy_from_slice(word.as_bytes());
    start
}

/// Writes an address.
fn write_address(address: Addr, buffer: &mut [u8; ROOM], end: usize) -> usize
    requires { (16 ≤ end) × (end ≤ 128) }
    ensures start { (result ≤ end) × (end ≤ result + 15) }
    ensures written { drop result buffer.new ≡ address_text address.0 ++ drop end buffer.old }
    ensures ascii { IsAscii (drop end buffer.old) → IsAscii (drop result buffer.new) }
{
    let [first, second, third, fourth] = address.0.to_be_bytes();
    let start = write_marked(b'.', fourth, buffer, end);
    let start = write_marked(b'.', third, buffer, start);
    let start = write_marked(b'.', second, buffer, start);
    write_byte(first, buffer, start)
}

/// Writes a prefix and a space.
pub(crate) fn write_prefix(net: Prefix, buffer: &mut [u8; ROOM], end: usize) -> usize
    requires { (21 ≤ end) × (end ≤ 128) }
    ensures start { result ≤ end }
    ensures written { drop result buffer.new
        ≡ prefix_text net ++ codes " " ++ drop end buffer.old }
    ensures ascii { IsAscii (drop end buffer.old) → IsAscii (drop result buffer.new) }
{
    let start = write_character(b' ', buffer, end);
    let start = write_marked(b'/', net.len(), buffer, start);
    write_address(net.addr(), buffer, start)
}

/// Writes two costs, each between spaces.
pub(crate) fn write_costs(cost: u64, cost2: u32, buffer: &mut [u8; ROOM], end: usize) -> usize
    requires { (43 ≤ end) × (end ≤ 128) }
    ensures start { (result ≤ end) × (end ≤ result + 43) }
    ensures written { drop result buffer.new
        ≡ codes " " ++ decimal cost ++ codes " " ++ decimal cost2 ++ codes " "
        ++ drop end buffer.old }
    ensures ascii { IsAscii (drop end buffer.old) → IsAscii (drop result buffer.new) }
{
    let start = write_character(b' ', buffer, end);
    let start = write_number(u64::from(cost2), buffer, start);
    write_number(cost, buffer, start)
}

/// Adds what a buffer has from a place on.
pub(crate) fn push_written<A: Allocator + Copy>(
    text: &mut String<A>,
    buffer: &[u8; ROOM],
    start: usize,
) -> Result<(), AllocError>
    requires room { start ≤ 128 }
    requires ascii { IsAscii (drop start buffer.now) }
    ensures { OnOk result (string_bytes text.new ≡ string_bytes text.old ++ drop start buffer.now) }
{
    // SAFETY: all that is written is ASCII, which is proved at each call.
    text.push_str(unsafe { std::str::from_utf8_unchecked(&buffer[start..]) })
}

/// Writes the word for a type of paths.
pub(crate) fn write_kind(kind: PathType, buffer: &mut [u8; ROOM], end: usize) -> usize
    requires { (5 ≤ end) × (end ≤ 128) }
    ensures start { (result ≤ end) × (end ≤ result + 5) }
    ensures written { drop result buffer.new ≡ kind_text kind ++ drop end buffer.old }
    ensures ascii { IsAscii (drop end buffer.old) → IsAscii (drop result buffer.new) }
{
    match kind {
        PathType::Intra => write_word("intra", buffer, end),
        PathType::Inter => write_word("inter", buffer, end),
        PathType::Ext1 => write_word("ext1", buffer, end),
        PathType::Ext2 => write_word("ext2", buffer, end),
    }
}

/// Writes the lowest of areas that rise, and a dash where there is none, and a space.
pub(crate) fn write_area(areas: &[AreaId], buffer: &mut [u8; ROOM], end: usize) -> usize
    requires { (17 ≤ end) × (end ≤ 128) }
    ensures start { result ≤ end }
    ensures written { drop result buffer.new
        ≡ area_text areas.now ++ codes " " ++ drop end buffer.old }
    ensures ascii { IsAscii (drop end buffer.old) → IsAscii (drop result buffer.new) }
{
    let start = write_character(b' ', buffer, end);
    match areas.first() {
        Some(area) => write_address(Addr(area.0), buffer, start),
        None => write_character(b'-', buffer, start),
    }
}

/// Writes a hop.
pub(crate) fn write_hop(hop: Hop, buffer: &mut [u8; ROOM], end: usize) -> usize
    requires { (39 ≤ end) × (end ≤ 128) }
    ensures start { (result ≤ end) × (end ≤ result + 39) }
    ensures written { drop result buffer.new ≡ hop_text hop ++ drop end buffer.old }
    ensures ascii { IsAscii (drop end buffer.old) → IsAscii (drop result buffer.new) }
{
    match hop {
        Hop::Connected => write_word("connected", buffer, end),
        Hop::Link(interface) => {
            let start = write_address(interface, buffer, end);
            write_word("link:", buffer, start)
        }
        Hop::Attached(interface) => {
            let start = write_address(interface, buffer, end);
            write_word("attached:", buffer, start)
        }
        Hop::Gateway(interface, gateway) => {
            let start = write_address(gateway, buffer, end);
            let start = write_character(b':', buffer, start);
            let start = write_address(interface, buffer, start);
            write_word("gateway:", buffer, start)
        }
    }
}
