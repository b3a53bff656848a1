//! Prefixes and masks.

use lsa_codec::{Addr, Prefix, is_mask, len_of_mask, mask_of_len};
use std::test::*;

/// Addresses and lengths, and the mask of those that make a prefix.
const PREFIXES: &[(u32, u8, Option<u32>)] = &[
    (0x0a070000, 16, Some(0xffff0000)),
    (0x0a000001, 8, None),
    (0, 0, Some(0)),
    (0, 1, Some(0x80000000)),
    (0, 31, Some(0xfffffffe)),
    (1, 32, Some(0xffffffff)),
    (0, 33, None),
];

/// Whether an address and a length make the prefix with this mask, which is that of the length; or
/// none.
fn is_prefix_so(address: u32, len: u8, mask: Option<u32>) -> bool {
    match Prefix::new(Addr(address), len) {
        Some(prefix) => {
            let bits = prefix.mask();
            prefix.addr() == Addr(address)
                && prefix.len() == len
                && Some(bits) == mask
                && len <= 32
                && mask_of_len(len) == bits
                && is_mask(bits)
                && len_of_mask(bits) == len
        }
        None => mask.is_none(),
    }
}

#[test]
fn makes_prefixes_and_masks(rt: HostRuntime) -> Result<(), Fail> {
    for (address, len, mask) in PREFIXES {
        assert!(rt; is_prefix_so(*address, *len, *mask), "{address}/{len}");
    }
    assert!(rt; !is_mask(0x00000001));
    assert!(rt; !is_mask(0xff00ff00));
    Ok(())
}

#[test]
fn masks_host_bits_and_orders_prefixes(rt: HostRuntime) {
    let prefix = Prefix::new(Addr(0x0a070000), 16);
    assert!(rt; Some(Prefix::masked(Addr(0x0a07ffff), 16)) == prefix);
    assert!(rt; Some(Prefix::masked(Addr(0x0a08ffff), 16)) != prefix);
    assert!(rt; Prefix::new(Addr(0), 32) < Prefix::new(Addr(1), 32));
    assert!(rt; Prefix::new(Addr(0), 0) < Prefix::new(Addr(0), 1));
}
