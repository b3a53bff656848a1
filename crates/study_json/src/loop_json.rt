//! Loops and blackholes.

use crate::document::Document;
use crate::member::{push_first, push_next};
use loop_report::{Blackhole, PrefixLoop};
use std::alloc::{AllocError, Allocator};
use study_text::push_word;

impl<B: Allocator + Copy> Document for PrefixLoop<B> {
    ghost use Rattle.study_json.specs.Loops.{loop_json};

    ghost json_as = { loop_json };

    fn push_json<A: Allocator + Copy>(&self, text: &mut Vec<u8, A>) -> Result<(), AllocError> {
        push_first(text, "prefix", &self.net())?;
        push_next(text, "routers", &self.routers())?;
        push_word(text, "}")
    }
}

impl<B: Allocator + Copy> Document for Blackhole<B> {
    ghost use Rattle.study_json.specs.Loops.{blackhole_json};

    ghost json_as = { blackhole_json };

    fn push_json<A: Allocator + Copy>(&self, text: &mut Vec<u8, A>) -> Result<(), AllocError> {
        push_first(text, "prefix", &self.net())?;
        push_next(text, "router", &self.router())?;
        push_next(text, "from", &self.senders())?;
        push_word(text, "}")
    }
}
