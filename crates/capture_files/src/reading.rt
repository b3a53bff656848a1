//! What was read of a pcapng file so far.

use crate::frame::Frame;
use crate::interface::Interface;
use crate::order::Order;
use std::alloc::{Allocator, Global};

/// The section that is read, and the frames so far.
#[derive(Debug, Drop)]
pub(crate) struct Reading<'a, A: Allocator = Global> {
    /// The byte order of the section.
    pub(crate) order: Order,
    /// The interfaces of the section so far.
    pub(crate) interfaces: Vec<Interface, A>,
    /// The frames of the file so far.
    pub(crate) frames: Vec<Frame<'a>, A>,
}
