//! An accepted LSA, and how it is decoded (RFC 2328, A.4.1).

ghost use Rattle.std.specs.Prelude.{◌≡◌, ◌≢◌, ◌≤◌, ◌++◌, length, drop, IfOk, IfErr, Ok, MatchOption, List, ℕ};
ghost use Rattle.lsa_codec.specs.Fields.{kind_of, byte_at};
ghost use Rattle.lsa_codec.specs.Links.{links_of, link_count};
ghost use Rattle.lsa_codec.specs.Accepted.{IsAccepted};
ghost use Rattle.lsa_codec.specs.Decoding.{decoded, IsFaultOf};
ghost use Rattle.lsa_codec.specs.Key.{key_of, is_at_max_age};

use crate::accept::check;
use crate::address::{Addr, RouterId};
use crate::fault::LsaFault;
use crate::field::{u16_at, u32_at};
use crate::key::Key;
use crate::links::Links;
use std::alloc::{Allocator, Global};
use std::marker::Model;

/// The maximum number of bytes of an LSA, which its length field can hold (RFC 2328, A.4.1).
pub const LONGEST_LSA: usize = 65_535;

/// An accepted LSA, seen as its bytes, which never change. The record `IsAccepted` defines which
/// bytes are accepted; `LsaFault` lists the same tests by their faults.
#[derive(Debug, Drop)]
pub struct Lsa<A: Allocator = Global> {
    bytes: Vec<u8, A>,
}

impl<A: Allocator> Model for Lsa<A> {
    ghost use Rattle.std.specs.Prelude.{List, ℕ};
    ghost use Rattle.lsa_codec.specs.Accepted.{IsAccepted};

    ghost Value = { List ℕ };

    ghost view = { λ l. l.bytes.items };

    ghost invariant = { λ l. IsAccepted l.bytes.items };
}

impl<A: Allocator + Copy> Lsa<A> {
    /// The LSA at the front of the bytes, and its length in bytes. Any bytes may follow it.
    ///
    /// # Errors
    ///
    /// The first fault in the order of `LsaFault`. `OutOfMemory` comes only where there is no other
    /// fault.
    #[tactic(auto, unfolding(crate::specs::Decoding::decoded))]
    pub fn decode(alloc: A, bytes: &[u8]) -> Result<(Lsa<A>, usize), LsaFault>
        ensures found { IfOk result (λ found. decoded bytes.now ≡ Ok found.0) }
        ensures length { IfOk result (λ found. found.1 ≡ length found.0) }
        ensures accepted { IfOk result (λ found. IsAccepted found.0) }
        ensures front { IfOk result (λ found. bytes.now ≡ found.0 ++ drop found.1 bytes.now) }
        ensures within { IfOk result (λ found. found.1 ≤ length bytes.now) }
        ensures fault { IfErr result (λ fault. IsFaultOf fault (decoded bytes.now)) }
    {
        if bytes.len() < 20 {
            return Err(LsaFault::Truncated);
        }
        let size = usize::from(u16_at(bytes, 18));
        if size < 20 {
            return Err(LsaFault::Length);
        }
        if bytes.len() < size {
            return Err(LsaFault::Truncated);
        }
        let lsa = &bytes[..size];
        check(lsa)?;
        let bytes = Vec::from_slice(alloc, lsa)?;
        Ok((Lsa { bytes }, size))
    }

    /// The LSA of bytes that are accepted.
    pub(crate) fn accepted(bytes: Vec<u8, A>) -> Lsa<A>
        requires { IsAccepted bytes.items }
        ensures { result ≡ bytes.items }
    {
        Lsa { bytes }
    }

    /// The bytes, as they were decoded or made.
    pub fn bytes(&self) -> &[u8]
        ensures bytes { result.now ≡ self.now }
        ensures accepted { IsAccepted self.now }
    {
        &self.bytes
    }

    /// The three fields that name the LSA (RFC 2328, 12.1).
    pub fn key(&self) -> Key
        ensures { result ≡ key_of self.now }
    {
        Key {
            kind: self.bytes[3],
            id: Addr(u32_at(&self.bytes, 4)),
            adv: RouterId(u32_at(&self.bytes, 8)),
        }
    }

    /// Whether the LS age is MaxAge, which is 3600 seconds, or more. The top bit of the age,
    /// DoNotAge, does not count (RFC 2328, 12.1.1; RFC 1793, 2.2).
    pub fn at_max_age(&self) -> bool
        ensures { result ≡ is_at_max_age self.now }
    {
        u16_at(&self.bytes, 0) & 0x7fff >= 3600
    }
}
