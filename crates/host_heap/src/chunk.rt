//! Unused parts of the memory that a host handed in, and stacks of them.

ghost use Rattle.std.specs.Prelude.{◌≡◌, ℕ, ◌+◌, ◌-◌, ◌%◌, ◌<◌, ◌≤◌};
ghost use Rattle.host_heap.specs.Ownership.{bytes_at, stacked};

use std::marker::Model;
use std::ptr::null_mut;

/// Unused memory that begins at a multiple of 16 bytes.
#[repr(C)]
#[derive(Drop)]
pub struct Chunk {
    /// Its first byte.
    pub(crate) ptr: *mut u8,
    /// Its length, in bytes.
    pub ghost size: { ℕ },
}

impl Model for Chunk {
    ghost also_owns = { λ c. bytes_at c.ptr c.size };
}

/// The memory that a host hands in, which is the heap's from then on.
///
/// In C it is `struct { void *start; size_t size; }`. The caller sees to it that nobody else uses
/// the memory, that it begins at a multiple of 16 bytes, and what the ghost field states.
#[repr(C)]
#[derive(Drop)]
pub struct HostMemory {
    /// The memory.
    pub start: Chunk,
    /// Its length in bytes, a multiple of 16.
    pub size: usize,
    pub ghost fits: { (start.size ≡ size) × (size % 16 ≡ 0) },
}

impl Chunk {
    /// Cuts it in two: the first `size` bytes, and those after them.
    pub(crate) fn split(self, size: usize) -> (Chunk, Chunk)
        requires { (size % 16 ≡ 0) × (size ≤ self.size) }
        ensures { (result.0.size ≡ size) × (result.1.size ≡ self.size - size) }
    {
        let Chunk { ptr } = self;
        let rest = unsafe { ptr.add(size) };
        (Chunk { ptr }, Chunk { ptr: rest })
    }
}

/// Chunks of one size, one on another. Each begins with the address of the one below it.
#[derive(Drop)]
pub(crate) struct Stack {
    /// The chunk on top; null where there is none.
    top: *mut u8,
    pub(crate) ghost size: { ℕ },
    pub(crate) ghost count: { ℕ },
}

impl Model for Stack {
    ghost also_owns = { λ s. stacked s.size s.count s.top };
}

impl Stack {
    /// The stack of no chunk.
    pub(crate) fn new() -> Stack
        ensures { result.count ≡ 0 }
    {
        Stack { top: null_mut() }
    }

    /// Puts a chunk on top.
    pub(crate) fn push(self, chunk: Chunk) -> Stack
        requires { (16 ≤ chunk.size) × (chunk.size % 16 ≡ 0)
            × (0 < self.count → chunk.size ≡ self.size) }
        ensures { (result.size ≡ chunk.size) × (result.count ≡ self.count + 1) }
    {
        let Stack { top } = self;
        let Chunk { ptr } = chunk;
        unsafe {
            let place = ptr as *mut *mut u8;
            place.write(top);
        }
        Stack { top: ptr }
    }

    /// Takes the chunk on top.
    pub(crate) fn pop(self) -> (Chunk, Stack)
        requires { 0 < self.count }
        ensures { (result.0.size ≡ self.size) × (result.1.size ≡ self.size)
            × (result.1.count + 1 ≡ self.count) }
    {
        let Stack { top } = self;
        let next = unsafe { (top as *mut *mut u8).read() };
        (Chunk { ptr: top }, Stack { top: next })
    }
}
