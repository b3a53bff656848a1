//! Growths that are granted, counted and refused.

use std::alloc::{AllocError, Allocator};
use test_support::FailingAlloc;

/// More pushes than the tests' growths need: a list doubles.
const PUSHES: u64 = 4_096;

/// Pushes onto a list that starts with room for one, and counts the blocks that it got until the
/// first refusal.
fn blocks_until_refusal<A: Allocator + Copy>(alloc: A) -> u64 {
    let Ok(mut list) = Vec::with_capacity(alloc, 1) else {
        return 0;
    };
    let mut blocks: u64 = 1;
    for number in 0..PUSHES {
        let room = list.capacity();
        if list.push(number).is_err() {
            return blocks;
        }
        if list.capacity() > room {
            blocks = blocks.wrapping_add(1);
        }
    }
    blocks
}

/// Makes two lists with one handle, and frees both.
fn make_two<A: Allocator + Copy>(alloc: A) -> Result<(), AllocError> {
    let mut first = Vec::with_capacity(alloc, 4)?;
    let mut second = Vec::with_capacity(alloc, 4)?;
    first.push(1u32)?;
    second.push(2u32)?;
    Ok(())
}

#[test]
fn grants_that_many_growths_and_refuses_the_next(rt: HostRuntime) {
    for granted in 0..6u64 {
        let failing = FailingAlloc::new(rt.alloc(), granted);
        assert_eq!(rt;
            blocks_until_refusal(&failing),
            granted,
            "with {granted} left"
        );
        assert_eq!(rt; failing.remaining(), 0, "with {granted} left");
    }
}

#[test]
fn counts_down(rt: HostRuntime) -> Result<(), AllocError> {
    let failing = FailingAlloc::new(rt.alloc(), 4);
    assert_eq!(rt; failing.remaining(), 4);
    let mut list = Vec::with_capacity(&failing, 2)?;
    assert_eq!(rt; failing.remaining(), 3);
    list.push(1u64)?;
    list.push(2)?;
    assert_eq!(rt; failing.remaining(), 3, "two fit");
    list.push(3)?;
    assert_eq!(rt; failing.remaining(), 2, "the third is a growth");
    let other: Vec<u8, &FailingAlloc> = Vec::with_capacity(&failing, 1)?;
    assert_eq!(rt; failing.remaining(), 1, "two lists share the count");
    drop(other);
    drop(list);
    assert_eq!(rt; failing.remaining(), 1, "a freed block adds nothing");
    Ok(())
}

#[test]
fn counts_as_often_as_it_is_copied(rt: HostRuntime) -> Result<(), AllocError> {
    let failing = FailingAlloc::new(rt.alloc(), 3);
    make_two(&failing)?;
    assert_eq!(rt; failing.remaining(), 1);
    assert!(rt; make_two(&failing).is_err());
    assert_eq!(rt; failing.remaining(), 0);
    assert!(rt; make_two(&failing).is_err(), "it goes on refusing");
    assert_eq!(rt; failing.remaining(), 0);
    Ok(())
}

#[test]
fn sets_the_number_of_remaining_growths(rt: HostRuntime) -> Result<(), AllocError> {
    let failing = FailingAlloc::new(rt.alloc(), 5);
    make_two(&failing)?;
    failing.set_remaining(1);
    assert_eq!(rt; failing.remaining(), 1);
    assert!(rt; make_two(&failing).is_err());
    failing.set_remaining(u64::MAX);
    assert_eq!(rt; failing.remaining(), 5, "no more than the limit");
    assert_eq!(rt; blocks_until_refusal(&failing), 5);
    failing.set_remaining(2);
    assert_eq!(rt; blocks_until_refusal(&failing), 2);
    Ok(())
}
