//! The heap: memory that no block has had yet, and the freed blocks of each size.

ghost use Rattle.std.specs.Prelude.{◌≡◌, ℕ, ◌*◌, ◌/◌, ◌%◌, ◌^◌, ◌<◌, ◌≤◌, max, IfSome};
ghost use Rattle.host_heap.specs.Ownership.{IsBlockSize, block_token};

use crate::chunk::{Chunk, HostMemory, Stack};
use std::alloc::{AllocError, Allocator};
use std::cell::Cell;

/// The greatest request, in bytes, and the greatest size of a block.
const MOST: usize = 1 << 40;

/// The number of sizes that a block can have by their logarithms: 0 to 40.
const CLASSES: usize = 41;

/// What each block is aligned to, in bytes.
const ALIGN: usize = 16;

/// The freed blocks of one size.
#[derive(Drop)]
struct Free {
    stack: Stack,
    size: usize,
    count: usize,
    ghost sized: { (0 < count → stack.size ≡ size) × (stack.count ≡ count) },
}

/// The memory that no block has had yet.
#[derive(Drop)]
struct Fresh {
    start: Chunk,
    size: usize,
    ghost fits: { start.size ≡ size },
}

/// An allocator over memory that a host handed in.
///
/// It is not for several threads: `&HostHeap` is neither `Send` nor `Sync`.
#[derive(Drop)]
pub struct HostHeap {
    /// What is left of the memory. It is `None` while a block is cut off.
    fresh: Cell<Option<Fresh>>,
    /// The freed blocks, by the logarithm of their size.
    free: [Cell<Option<Free>>; CLASSES],
}

/// The size of the block for a request, in bytes: the least power of two that holds it, and 16 at
/// least.
fn block_size(size: usize) -> usize
    requires { size ≤ 2 ^ 40 }
    ensures { IsBlockSize size result }
{
    size.max(16).next_power_of_two()
}

impl HostHeap {
    /// A heap without a block.
    pub fn new(memory: HostMemory) -> HostHeap {
        let HostMemory { start, size } = memory;
        HostHeap {
            fresh: Cell::new(Some(Fresh { start, size })),
            free: std::array::from_fn(|_| Cell::new(None)),
        }
    }

    /// Unused memory for a request. It is `None` where no block of its size is free and what is
    /// left of the memory is too short, where the request is above 2^40 bytes, or where it has a
    /// greater alignment than blocks have.
    pub(crate) fn take(&self, size: usize, align: usize) -> Option<Chunk>
        ensures { IfSome result (λ c. IsBlockSize size c.size × (size ≤ 2 ^ 40) × (align ≤ 16)) }
    {
        if align > ALIGN || size > MOST {
            return None;
        }
        let size = block_size(size);
        match self.reuse(size) {
            Some(chunk) => Some(chunk),
            None => self.cut(size),
        }
    }

    /// A freed block of this size, if there is one.
    fn reuse(&self, size: usize) -> Option<Chunk>
        requires { 0 < size }
        ensures { IfSome result (λ c. c.size ≡ size) }
    {
        let cell = self.free.get(size.ilog2() as usize)?;
        let free = cell.replace(None)?;
        if free.size != size || free.count == 0 {
            cell.replace(Some(free));
            return None;
        }
        let Free { stack, size, count } = free;
        let (chunk, stack) = stack.pop();
        cell.replace(Some(Free {
            stack,
            size,
            count: count - 1,
        }));
        Some(chunk)
    }

    /// A block cut off the memory that no block has had yet, if it is long enough.
    fn cut(&self, size: usize) -> Option<Chunk>
        requires { size % 16 ≡ 0 }
        ensures { IfSome result (λ c. c.size ≡ size) }
    {
        let fresh = self.fresh.replace(None)?;
        if fresh.size < size {
            self.fresh.replace(Some(fresh));
            return None;
        }
        let Fresh { start, size: all } = fresh;
        let (chunk, start) = start.split(size);
        self.fresh.replace(Some(Fresh {
            start,
            size: all - size,
        }));
        Some(chunk)
    }

    /// Keeps a freed block for the next request of its size.
    pub(crate) fn give(&self, chunk: Chunk, size: usize)
        requires { (chunk.size ≡ size) × (16 ≤ size) × (size % 16 ≡ 0) }
    {
        let Some(cell) = self.free.get(size.ilog2() as usize) else {
            return;
        };
        let (stack, count) = match cell.replace(None) {
            Some(free) => {
                if free.size != size || free.count == usize::MAX {
                    cell.replace(Some(free));
                    return;
                }
                (free.stack, free.count)
            }
            None => (Stack::new(), 0),
        };
        cell.replace(Some(Free {
            stack: stack.push(chunk),
            size,
            count: count + 1,
        }));
    }
}

unsafe impl Allocator for HostHeap {
    ghost dealloc_token = { λ heap. block_token };

    fn allocate(&self, size: usize, align: usize) -> Result<*mut u8, AllocError> {
        match self.take(size, align) {
            Some(Chunk { ptr }) => Ok(ptr),
            None => Err(AllocError),
        }
    }

    unsafe fn deallocate(&self, ptr: *mut u8, size: usize, _align: usize) {
        let size = block_size(size);
        self.give(Chunk { ptr }, size);
    }
}
