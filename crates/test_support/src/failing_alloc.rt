//! An allocator for tests of code that has to handle the failure of allocations.
//!
//! [`FailingAlloc`] asks another allocator for a given number of blocks and then refuses each
//! further one. A test passes `&failing`, which is an allocator and is `Copy`, and so can:
//!
//! - refuse the growth after the first `n`, for each `n` in turn, with `FailingAlloc::new(alloc,
//!   n)`;
//! - count growths, with `FailingAlloc::new(alloc, u64::MAX)` and the difference of two
//!   `remaining()`;
//! - make what a call is lent with ample memory, refuse growths in that call alone, and have ample
//!   memory after it, with `set_remaining`.
//!
//! # What is proved, and what is not
//!
//! Proved: `allocate` and `deallocate` meet the contract of `Allocator`. So each block comes from
//! the inner allocator, and so does the right to free it. The limit is the number given to `new`,
//! and `remaining()` is at most the limit.
//!
//! Not stated, since no contract can refer to the contents of a `Cell`: that nothing is spent at
//! first, that each request spends one, that requests are refused exactly from the limit on, and
//! what `set_remaining` changes. Nor does the contract of `Allocator` state when a request is
//! refused, or that a freed block goes back to the inner allocator and is not kept. The tests show
//! these.

ghost use Rattle.std.specs.Prelude.{◌≡◌, ◌≤◌};

use crate::allowance::Allowance;
use std::alloc::{AllocError, Allocator, Global};

/// An allocator that asks `A` for a given number of blocks, and then refuses.
///
/// Each request for a block takes one from those that are left, whether or not `A` then has the
/// memory. A growth of a collection asks for one block, and shrinking it may ask for one, too. A
/// request that is refused because no block is left does not reach `A`. Freeing a block returns it
/// to `A` and adds nothing to those left.
#[derive(Drop)]
pub struct FailingAlloc<A: Allocator = Global> {
    inner: A,
    allowance: Allowance,
}

impl<A: Allocator> FailingAlloc<A> {
    /// An allocator that asks `inner` for `remaining` blocks before it refuses.
    ///
    /// The clauses state that `remaining` is its limit. None states that nothing is spent yet.
    pub fn new(inner: A, remaining: u64) -> FailingAlloc<A>
        ensures inner { result.inner ≡ inner }
        ensures limit { result.allowance.limit ≡ remaining }
    {
        FailingAlloc {
            inner,
            allowance: Allowance::new(remaining),
        }
    }

    /// Sets the number of blocks that it will still ask for, at most the limit given to `new`.
    ///
    /// No clause can state this; a test shows it.
    pub fn set_remaining(&self, remaining: u64) {
        self.allowance.set_remaining(remaining);
    }

    /// The number of blocks that it will still ask for.
    ///
    /// The clause states that this is at most the limit given to `new`. None states that each
    /// request takes one away.
    pub fn remaining(&self) -> u64
        ensures within { result ≤ self.now.allowance.limit }
    {
        self.allowance.remaining()
    }
}

/// Blocks are the inner allocator's. `grow` and `shrink` are those of the trait, which ask for a
/// new block, and free the old one where they got it.
unsafe impl<A: Allocator> Allocator for FailingAlloc<A> {
    ghost dealloc_token = { λ heap ty ptr. A.dealloc_token heap.inner ty ptr };

    fn allocate(&self, size: usize, align: usize) -> Result<*mut u8, AllocError> {
        if !self.allowance.spend() {
            return Err(AllocError);
        }
        self.inner.allocate(size, align)
    }

    unsafe fn deallocate(&self, ptr: *mut u8, size: usize, align: usize) {
        self.inner.deallocate(ptr, size, align);
    }
}
