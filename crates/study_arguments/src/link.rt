//! What a word means as a prefix, and what names a link.

ghost use Rattle.std.specs.Prelude.{◌≡◌};
ghost use Rattle.study_arguments.specs.Values.{is_like_prefix};

use crate::addresses::address_named;
use crate::argument::Argument;
use crate::fault::FaultKind;
use edit_script::{number16, prefix};
use lsa_codec::{Addr, Prefix};
use network_names::Names;
use std::alloc::Allocator;

/// What names a link of a router-LSA. Which link that is depends on the database.
#[derive(Clone, Copy, Debug, PartialEq, Eq)]
pub enum LinkName {
    /// The link's number in the router-LSA, counted from 1. No link has the number 0.
    Number(u16),
    /// The link of type 1, 2 or 4 with this Link Data, or the link of type 1 or 4 to the router
    /// with this Router ID (RFC 2328, A.4.2).
    Address(Addr),
    /// The link of type 3 to this stub network.
    Prefix(Prefix),
}

/// Whether a word is meant as a prefix: it has a `/`.
pub fn is_like_prefix(word: &[u8]) -> bool
    ensures { result ≡ is_like_prefix word.now }
{
    word.iter().any(|byte| *byte == b'/')
}

impl Argument for Prefix {
    ghost use Rattle.study_arguments.specs.Values.{prefix};

    ghost means = { prefix };

    fn read<A: Allocator + Copy>(_names: &Names<'_, A>, word: &[u8]) -> Result<Self, FaultKind> {
        Ok(prefix(word)?)
    }
}

#[tactic(auto, unfolding(crate::specs::Values::link))]
impl Argument for LinkName {
    ghost use Rattle.study_arguments.specs.Values.{link};

    ghost means = { link };

    fn read<A: Allocator + Copy>(names: &Names<'_, A>, word: &[u8]) -> Result<Self, FaultKind> {
        if let Some(address) = address_named(names, word) {
            return Ok(LinkName::Address(Addr(address)));
        }
        if let Ok(prefix) = prefix(word) {
            return Ok(LinkName::Prefix(prefix));
        }
        Ok(LinkName::Number(number16(word)?))
    }
}
