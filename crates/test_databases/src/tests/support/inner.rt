//! What the inner allocator is asked for, and what it gets back.

use linked_list_allocator::LocalHeap;
use std::alloc::AllocError;
use test_support::FailingAlloc;

/// The inner allocator is a heap that counts the bytes that are handed out.
#[test]
fn asks_the_inner_allocator_and_gives_back(rt: HostRuntime) -> Result<(), AllocError> {
    let heap = LocalHeap::new(rt.alloc(), 1_024)?;
    let failing = FailingAlloc::new(&heap, 3);
    let mut list = Vec::with_capacity(&failing, 2)?;
    assert_eq!(rt; heap.used(), 16, "two numbers of eight bytes");
    for number in 0..4u64 {
        list.push(number)?;
    }
    assert_eq!(rt; heap.used(), 32, "the growth gave the old block back");
    drop(list);
    assert_eq!(rt; heap.used(), 0, "the list is freed");
    let too_large: Result<Vec<u64, &FailingAlloc<&LocalHeap>>, AllocError> = Vec::with_capacity(
        &failing, 1_024,
    );
    assert!(rt; too_large.is_err(), "the heap has no room");
    assert_eq!(rt;
        failing.remaining(),
        0,
        "what the heap refused was asked for"
    );
    let refused: Result<Vec<u64, &FailingAlloc<&LocalHeap>>, AllocError> = Vec::with_capacity(
        &failing, 1,
    );
    assert!(rt; refused.is_err());
    assert_eq!(rt; heap.used(), 0, "what is refused does not reach the heap");
    Ok(())
}
