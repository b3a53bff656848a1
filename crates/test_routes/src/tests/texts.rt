//! What is built, as text.

use next_hops::Hop;
use std::alloc::Global;
use std::test::*;

/// Hops, each after a space.
pub(super) fn hops_text(alloc: Global, hops: &[Hop]) -> Result<String, Fail> {
    let mut text = String::new(alloc);
    for hop in hops {
        text.push_str(&format!(in alloc; " {hop}")?)?;
    }
    Ok(text)
}
