//! Which of two instances is newer.

use super::bytes::{ANNOUNCED, FARTHER, FLUSHED, GREATEST, NEWER, OLDER, OTHER};
use lsa_codec::Lsa;
use lsa_instances::compare_instances;
use std::alloc::Global;
use std::cmp::Ordering;
use std::test::*;

fn compared(alloc: Global, a: &[u8], b: &[u8]) -> Result<Ordering, Fail> {
    let (a, _) = Lsa::decode(alloc, a)?;
    let (b, _) = Lsa::decode(alloc, b)?;
    Ok(compare_instances(&a, &b))
}

#[test]
fn sequence_numbers_are_signed(rt: HostRuntime) -> Result<(), Fail> {
    let alloc = rt.alloc();
    assert!(rt; compared(alloc, NEWER, OLDER)? == Ordering::Greater);
    assert!(rt; compared(alloc, GREATEST, ANNOUNCED)? == Ordering::Greater);
    assert!(rt; compared(alloc, FLUSHED, ANNOUNCED)? == Ordering::Greater);
    assert!(rt; compared(alloc, FARTHER, ANNOUNCED)? == Ordering::Less);
    assert!(rt; compared(alloc, OTHER, OTHER)? == Ordering::Equal);
    Ok(())
}
