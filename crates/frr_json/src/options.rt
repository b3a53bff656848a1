//! The options of an LSA (RFC 2328, A.2), as letters.

ghost use Rattle.std.specs.Prelude.{◌≡◌, ◌≤◌, IfSome, option_map};
ghost use Rattle.frr_json.specs.Options.{after, mark_in, last_mark_in, options_of};

/// What follows these bytes, where the text begins with them.
fn after<'a>(front: &[u8], text: &'a [u8]) -> Option<&'a [u8]>
    ensures { option_map (λ rest. rest.now) result ≡ after front.now text.now }
{
    text.strip_prefix(front)
}

/// This bit, where the text begins with its letters, or 0, where it begins with a dash; and what
/// follows.
#[tactic(auto, unfolding(crate::specs::Options::mark_in))]
fn mark_in<'a>(bit: u8, letters: &[u8], text: &'a [u8]) -> Option<(u8, &'a [u8])>
    ensures value { option_map (λ found. (found.0, found.1.now)) result
        ≡ mark_in bit letters.now text.now }
    ensures bound { IfSome result (λ found. found.0 ≤ bit) }
{
    if let Some(rest) = after(letters, text) {
        return Some((bit, rest));
    }
    let rest = after(b"-|", text)?;
    Some((0, rest))
}

/// The lowest bit, with which the text ends.
fn last_mark_in(text: &[u8]) -> Option<u8>
    ensures value { result ≡ last_mark_in text.now }
    ensures bound { IfSome result (λ bit. bit ≤ 1) }
{
    match text {
        [b'M', b'T'] => Some(1),
        [b'-'] => Some(0),
        _ => None,
    }
}

/// The byte of the options whose letters stand here. The highest bit is not printed, and counts as
/// 0.
#[tactic(auto, unfolding(crate::specs::Options::options_of))]
pub(crate) fn options_of(text: &[u8]) -> Option<u8>
    ensures { result ≡ options_of text.now }
{
    let rest = after(b"*|", text)?;
    let (opaque, rest) = mark_in(0x40, b"O|", rest)?;
    let (demand, rest) = mark_in(0x20, b"DC|", rest)?;
    let (attributes, rest) = mark_in(0x10, b"EA|", rest)?;
    let (nssa, rest) = mark_in(0x08, b"N/P|", rest)?;
    let (multicast, rest) = mark_in(0x04, b"MC|", rest)?;
    let (external, rest) = mark_in(0x02, b"E|", rest)?;
    let topology = last_mark_in(rest)?;
    Some(opaque + demand + attributes + nssa + multicast + external + topology)
}
