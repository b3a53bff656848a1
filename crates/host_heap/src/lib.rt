//! An allocator over one block of memory that a host hands in, for places without an allocator of
//! their own, as a WebAssembly module.
//!
//! A [`HostHeap`] is made of a [`HostMemory`], and `&heap` is an allocator that is `Copy`. A block
//! has the size of its request, rounded up to a power of two of at least 16, and is aligned to 16
//! bytes. A freed block serves the next request of its size. What does not fit is `AllocError`.
#![tactic(auto)]

mod chunk;
mod heap;

pub use chunk::{Chunk, HostMemory};
pub use heap::HostHeap;
