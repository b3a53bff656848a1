//! Blocks of a pcapng file (draft-ietf-opsawg-pcapng, 3).

ghost use Rattle.std.specs.Prelude.{◌≡◌, ◌≤◌, ◌<◌, ◌+◌, length, option_map, Ok, Err, Some, None, Result, MatchResult, IfOk, IfSome};
ghost use Rattle.capture_files.specs.Blocks.{block_text, kind_of, parsed_order, order_of, ordered_block, sized_block, first_block};

use crate::field::u32_at;
use crate::order::Order;

/// The type of a Section Header Block, which reads the same in either byte order.
pub(crate) const SECTION_HEADER: u32 = 0x0a0d_0d0a;

/// The bytes of a type and two lengths.
const SHORTEST_BLOCK: usize = 12;

/// The most bytes of a block, as readers of the format take them.
const LONGEST_BLOCK: usize = 16_777_216;

/// What is malformed in a block.
#[derive(Clone, Copy, Debug, PartialEq, Eq)]
pub(crate) enum Flaw {
    /// No byte order in which the byte-order magic is known.
    ByteOrder,
    /// A length that a block does not have, or another one at its end, or too short for its type.
    BlockLength,
    /// The major version of a section is not 1.
    SectionVersion,
    /// More bytes were captured than there were, or than the block has.
    BlockCaptured,
    /// An interface that the section does not have.
    NoInterface,
}

/// A whole block, and the byte order of its section.
#[derive(Clone, Copy, Debug)]
pub(crate) struct Block<'a> {
    /// The byte order of its section.
    pub(crate) order: Order,
    /// All bytes of the block, from its type to the length at its end.
    pub(crate) bytes: &'a [u8],
}

/// The byte order in which the byte-order magic is known.
fn parsed_order(bytes: &[u8]) -> Option<Order>
    requires { 12 ≤ length bytes.now }
    ensures { result ≡ parsed_order bytes.now }
{
    if u32_at(Order::Big, bytes, 8) == 0x1a2b_3c4d {
        return Some(Order::Big);
    }
    if u32_at(Order::Little, bytes, 8) == 0x1a2b_3c4d {
        return Some(Order::Little);
    }
    None
}

/// The byte order of the block at the front of the bytes.
fn order_of(order: Order, bytes: &[u8]) -> Option<Order>
    requires { 12 ≤ length bytes.now }
    ensures { result ≡ order_of order bytes.now }
{
    if u32_at(Order::Big, bytes, 0) == SECTION_HEADER {
        parsed_order(bytes)
    } else {
        Some(order)
    }
}

/// The block of this number of bytes.
fn sized_block(order: Order, total: usize, bytes: &[u8]) -> Result<Option<Block<'_>>, Flaw>
    ensures block { MatchResult result
        (λ block. sized_block order total bytes.now ≡ Ok (option_map block_text block))
        (λ flaw. sized_block order total bytes.now ≡ Err flaw) }
    ensures within { IfOk result (λ block. IfSome block
        (λ block. (12 ≤ length block.bytes.now) × (length block.bytes.now ≤ length bytes.now))) }
{
    if total < SHORTEST_BLOCK {
        return Err(Flaw::BlockLength);
    }
    if total % 4 != 0 {
        return Err(Flaw::BlockLength);
    }
    if LONGEST_BLOCK < total {
        return Err(Flaw::BlockLength);
    }
    if bytes.len() < total {
        return Ok(None);
    }
    if u32_at(order, bytes, total - 4) as usize != total {
        return Err(Flaw::BlockLength);
    }
    Ok(Some(Block {
        order,
        bytes: &bytes[..total],
    }))
}

/// The block at the front of the bytes, where a whole block stands there.
#[tactic(auto, unfolding(crate::specs::Blocks::first_block))]
pub(crate) fn first_block(order: Order, bytes: &[u8]) -> Result<Option<Block<'_>>, Flaw>
    ensures block { MatchResult result
        (λ block. first_block order bytes.now ≡ Ok (option_map block_text block))
        (λ flaw. first_block order bytes.now ≡ Err flaw) }
    ensures within { IfOk result (λ block. IfSome block
        (λ block. (12 ≤ length block.bytes.now) × (length block.bytes.now ≤ length bytes.now))) }
{
    if bytes.len() < SHORTEST_BLOCK {
        return Ok(None);
    }
    let Some(order) = order_of(order, bytes) else {
        return Err(Flaw::ByteOrder);
    };
    let total = u32_at(order, bytes, 4) as usize;
    sized_block(order, total, bytes)
}
