//! A position in a dump.

ghost use Rattle.std.specs.Prelude.{◌+◌, ◌<◌, ◌^◌, length};

/// The bytes of a dump that are left, and how many stand before them.
#[derive(Clone, Copy)]
pub(crate) struct Cursor<'a> {
    pub(crate) offset: usize,
    pub(crate) rest: &'a [u8],
    ghost within: { offset + length rest.now < 2 ^ 32 },
}
