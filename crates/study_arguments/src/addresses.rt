//! What a word means as an address, spelled or named.

ghost use Rattle.std.specs.Prelude.{◌≡◌};
ghost use Rattle.network_names.specs.Names.{stands_for};
ghost use Rattle.study_arguments.specs.Values.{address_named, named};

use crate::argument::Argument;
use crate::fault::FaultKind;
use edit_script::{ScriptFault, address};
use lsa_codec::{Addr, AreaId, RouterId};
use network_names::Names;
use std::alloc::Allocator;
use text_words::address_of;

/// An address in dotted decimal, for which no name stands.
#[derive(Clone, Copy, Debug, PartialEq, Eq)]
pub struct Dotted(pub Addr);

/// The address that a word spells, or that it stands for as a name.
pub(crate) fn address_named<A: Allocator + Copy>(names: &Names<'_, A>, word: &[u8]) -> Option<u32>
    ensures { result ≡ address_named (stands_for names.now) word.now }
{
    match address_of(word) {
        Some(address) => Some(address),
        None => names.address_of(word),
    }
}

/// The address that a word spells, or that it stands for as a name.
fn named<A: Allocator + Copy>(names: &Names<'_, A>, word: &[u8]) -> Result<u32, FaultKind>
    ensures { result ≡ named (stands_for names.now) word.now }
{
    address_named(names, word).ok_or(FaultKind::Script(ScriptFault::BadAddress))
}

impl Argument for RouterId {
    ghost use Rattle.study_arguments.specs.Values.{router_id};

    ghost means = { router_id };

    fn read<A: Allocator + Copy>(names: &Names<'_, A>, word: &[u8]) -> Result<Self, FaultKind> {
        Ok(RouterId(named(names, word)?))
    }
}

impl Argument for Addr {
    ghost use Rattle.study_arguments.specs.Values.{addr};

    ghost means = { addr };

    fn read<A: Allocator + Copy>(names: &Names<'_, A>, word: &[u8]) -> Result<Self, FaultKind> {
        Ok(Addr(named(names, word)?))
    }
}

impl Argument for AreaId {
    ghost use Rattle.study_arguments.specs.Values.{area_id};

    ghost means = { area_id };

    fn read<A: Allocator + Copy>(_names: &Names<'_, A>, word: &[u8]) -> Result<Self, FaultKind> {
        Ok(AreaId(address(word)?))
    }
}

impl Argument for Dotted {
    ghost use Rattle.study_arguments.specs.Values.{dotted};

    ghost means = { dotted };

    fn read<A: Allocator + Copy>(_names: &Names<'_, A>, word: &[u8]) -> Result<Self, FaultKind> {
        Ok(Dotted(Addr(address(word)?)))
    }
}
