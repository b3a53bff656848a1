//! The body of a network-LSA (RFC 2328, A.4.3) as it is printed, and its bytes.

ghost use Rattle.std.specs.Prelude.{◌≡◌, ◌++◌, IfOk, option_map};
ghost use Rattle.std.specs.Int.{w32, to_be_bytes};
ghost use Rattle.std.specs.List.{flat_map};
ghost use Rattle.frr_text.specs.Words.{words};
ghost use Rattle.frr_text.specs.Rules.{times};
ghost use Rattle.frr_text.specs.Bodies.{attached_in, network_in};

use crate::label::{Label, address_after, mask_after};
use lsa_codec::mask_of_len;
use std::alloc::{AllocError, Allocator};

/// These bytes, and after them those of the attached routers that stand here, of this number.
fn with_routers<A: Allocator + Copy>(
    mut bytes: Vec<u8, A>,
    count: u16,
    text: &[u8],
) -> Result<Option<Vec<u8, A>>, AllocError>
    ensures { IfOk result (λ made. option_map (λ all. all.items) made
        ≡ option_map (λ routers. bytes.items ++ flat_map (to_be_bytes w32) routers)
        (times attached_in count (words text.now))) }
{
    let mut rest = text;
    'routers: for _read in 0..count {
        let Some((router, after)) = address_after(Label::Attached, rest) else {
            return Ok(None);
        };
        bytes.extend_from_slice(&router.to_be_bytes())?;
        rest = after;
    }
    Ok(Some(bytes))
}

/// The bytes after the header of a network-LSA of this length.
#[tactic(auto, unfolding(crate::specs::Bodies::network_in))]
pub(crate) fn network_in<A: Allocator + Copy>(
    alloc: A,
    size: u16,
    text: &[u8],
) -> Result<Option<Vec<u8, A>>, AllocError>
    ensures { IfOk result (λ body. option_map (λ bytes. bytes.items) body
        ≡ network_in size (words text.now)) }
{
    let Some((len, rest)) = mask_after(Label::Mask, text) else {
        return Ok(None);
    };
    let bytes = Vec::from_slice(alloc, &mask_of_len(len as u8).to_be_bytes())?;
    with_routers(bytes, size.saturating_sub(24) / 4, rest)
}
