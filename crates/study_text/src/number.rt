//! Numbers, addresses and prefixes.

ghost use Rattle.std.specs.Prelude.{◌≡◌, ◌++◌, ◌∷◌, [], OnOk, decimal};
ghost use Rattle.lsa_codec.specs.Spelling.{address_text, prefix_text};

use itoa::Buffer;
use lsa_codec::{Addr, Prefix};
use std::alloc::{AllocError, Allocator};

/// Adds a number in decimal.
///
/// # Errors
///
/// Memory ran out.
pub fn push_number<A: Allocator + Copy>(
    text: &mut Vec<u8, A>,
    number: u64,
) -> Result<(), AllocError>
    ensures { OnOk result (text.new.items ≡ text.old.items ++ decimal number) }
{
    let mut buffer = Buffer::new();
    text.extend_from_slice(buffer.format(number).as_bytes())
}

/// Adds a number in decimal and a byte.
fn push_marked<A: Allocator + Copy>(
    text: &mut Vec<u8, A>,
    number: u8,
    mark: u8,
) -> Result<(), AllocError>
    ensures { OnOk result (text.new.items ≡ text.old.items ++ (decimal number ++ mark ∷ [])) }
{
    push_number(text, u64::from(number))?;
    text.push(mark)?;
    Ok(())
}

/// Adds an address in dotted form, as `10.0.0.1`.
///
/// # Errors
///
/// Memory ran out.
pub fn push_address<A: Allocator + Copy>(
    text: &mut Vec<u8, A>,
    address: Addr,
) -> Result<(), AllocError>
    ensures { OnOk result (text.new.items ≡ text.old.items ++ address_text address.0) }
{
    let [first, second, third, fourth] = address.0.to_be_bytes();
    push_marked(text, first, b'.')?;
    push_marked(text, second, b'.')?;
    push_marked(text, third, b'.')?;
    push_number(text, u64::from(fourth))
}

/// Adds a prefix: its address, a slash and its length, as `10.0.0.0/8`.
///
/// # Errors
///
/// Memory ran out.
pub fn push_prefix<A: Allocator + Copy>(
    text: &mut Vec<u8, A>,
    net: Prefix,
) -> Result<(), AllocError>
    ensures { OnOk result (text.new.items ≡ text.old.items ++ prefix_text net) }
{
    push_address(text, net.addr())?;
    text.push(b'/')?;
    push_number(text, u64::from(net.len()))
}
