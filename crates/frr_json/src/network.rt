//! The body of a network-LSA (RFC 2328, A.4.3) in JSON.

ghost use Rattle.std.specs.Prelude.{◌≡◌, ◌++◌, IfOk, option_map};
ghost use Rattle.json.specs.Value.{value_view, members_view};
ghost use Rattle.frr_json.specs.Bodies.{attached_bytes_in, bytes_of_each, network_in};

use crate::member::{address_at, members_at, number_at};
use json::Value;
use lsa_codec::mask_of_len;
use std::alloc::{AllocError, Allocator};

/// These bytes, and after them those of the attached routers that these members are.
fn with_routers<'a, A: Allocator + Copy>(
    mut bytes: Vec<u8, A>,
    members: &[(&'a str, Value<'a, A>)],
) -> Result<Option<Vec<u8, A>>, AllocError>
    ensures { IfOk result (λ made. option_map (λ all. all.items) made
        ≡ option_map (λ routers. bytes.items ++ routers)
        (bytes_of_each attached_bytes_in (members_view members.now))) }
{
    'routers: for member in members {
        let Some(router) = address_at("attachedRouterId", &member.1) else {
            return Ok(None);
        };
        bytes.extend_from_slice(&router.to_be_bytes())?;
    }
    Ok(Some(bytes))
}

/// The bytes after the header of a network-LSA.
#[tactic(auto, unfolding(crate::specs::Bodies::network_in))]
pub(crate) fn network_in<A: Allocator + Copy>(
    alloc: A,
    json: &Value<'_, A>,
) -> Result<Option<Vec<u8, A>>, AllocError>
    ensures { IfOk result (λ body. option_map (λ bytes. bytes.items) body
        ≡ network_in (value_view json.now)) }
{
    let Some(len) = number_at(32, "networkMask", json) else {
        return Ok(None);
    };
    let Some(routers) = members_at("attchedRouters", json) else {
        return Ok(None);
    };
    let bytes = Vec::from_slice(alloc, &mask_of_len(len as u8).to_be_bytes())?;
    with_routers(bytes, routers)
}
