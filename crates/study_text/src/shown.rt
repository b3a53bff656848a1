//! What can be shown as text, where routers have names.

use crate::number::{push_address, push_number, push_prefix};
use crate::router::push_router;
use lsa_codec::{Addr, AreaId, Prefix, RouterId};
use network_names::Names;
use std::alloc::{AllocError, Allocator};

/// What can be shown as text, where routers have names.
pub trait Shown {
    ghost use Rattle.std.specs.Prelude.{◌≡◌, ◌++◌, OnOk};
    ghost use Rattle.network_names.specs.Names.{called};
    ghost use Rattle.study_text.specs.Shown.{Text};

    /// The text, by the names of routers.
    ghost shown_as: { Text Self };

    /// Adds the text.
    ///
    /// # Errors
    ///
    /// Memory ran out.
    fn push_to<A: Allocator + Copy>(
        &self,
        text: &mut Vec<u8, A>,
        names: &Names<'_, A>,
    ) -> Result<(), AllocError>
        ensures { OnOk result
            (text.new.items ≡ text.old.items ++ shown_as (called names.now) self.now) };
}

impl Shown for RouterId {
    ghost use Rattle.study_text.specs.Shown.{shown};

    ghost shown_as = { shown };

    fn push_to<A: Allocator + Copy>(
        &self,
        text: &mut Vec<u8, A>,
        names: &Names<'_, A>,
    ) -> Result<(), AllocError> {
        push_router(text, names, *self)
    }
}

impl Shown for Addr {
    ghost use Rattle.lsa_codec.specs.Spelling.{address_text};

    ghost shown_as = { λ called address. address_text address.0 };

    fn push_to<A: Allocator + Copy>(
        &self,
        text: &mut Vec<u8, A>,
        _names: &Names<'_, A>,
    ) -> Result<(), AllocError> {
        push_address(text, *self)
    }
}

impl Shown for AreaId {
    ghost use Rattle.lsa_codec.specs.Spelling.{address_text};

    ghost shown_as = { λ called area. address_text area.0 };

    fn push_to<A: Allocator + Copy>(
        &self,
        text: &mut Vec<u8, A>,
        _names: &Names<'_, A>,
    ) -> Result<(), AllocError> {
        push_address(text, Addr(self.0))
    }
}

impl Shown for Prefix {
    ghost use Rattle.lsa_codec.specs.Spelling.{prefix_text};

    ghost shown_as = { λ called net. prefix_text net };

    fn push_to<A: Allocator + Copy>(
        &self,
        text: &mut Vec<u8, A>,
        _names: &Names<'_, A>,
    ) -> Result<(), AllocError> {
        push_prefix(text, *self)
    }
}

impl Shown for u16 {
    ghost use Rattle.std.specs.Prelude.{decimal};

    ghost shown_as = { λ called number. decimal number };

    fn push_to<A: Allocator + Copy>(
        &self,
        text: &mut Vec<u8, A>,
        _names: &Names<'_, A>,
    ) -> Result<(), AllocError> {
        push_number(text, u64::from(*self))
    }
}
