//! Costs of links.

use network_names::Names;
use std::alloc::{AllocError, Allocator};
use study_text::{Shown, push_number};

/// What a link costs, for TOS 0.
#[derive(Clone, Copy, Debug, PartialEq, Eq)]
pub struct Cost(pub u32);

impl Shown for Cost {
    ghost use Rattle.std.specs.Prelude.{decimal};

    ghost shown_as = { λ called one. decimal one.0 };

    fn push_to<A: Allocator + Copy>(
        &self,
        text: &mut Vec<u8, A>,
        _names: &Names<'_, A>,
    ) -> Result<(), AllocError> {
        let number = u64::from(self.0);
        push_number(text, number)
    }
}
