//! Addresses that one word spells.

ghost use Rattle.std.specs.Prelude.{◌≡◌};
ghost use Rattle.text_words.specs.Addresses.{address_of};

use std::net::Ipv4Addr;

/// The address that a word spells in dotted decimal, such as `192.0.2.1`; its first byte is the
/// highest of the number.
pub fn address_of(word: &[u8]) -> Option<u32>
    ensures { result ≡ address_of word.now }
{
    match Ipv4Addr::parse_ascii(word) {
        Ok(address) => Some(address.to_bits()),
        Err(_) => None,
    }
}
