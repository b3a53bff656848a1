//! What a word means as a number.

use crate::argument::Argument;
use crate::fault::FaultKind;
use edit_script::{MetricType, metric_type, metric24, number, number16};
use lsa_codec::Metric;
use network_names::Names;
use std::alloc::Allocator;

impl Argument for u16 {
    ghost use Rattle.study_arguments.specs.Values.{number16};

    ghost means = { number16 };

    fn read<A: Allocator + Copy>(_names: &Names<'_, A>, word: &[u8]) -> Result<Self, FaultKind> {
        Ok(number16(word)?)
    }
}

impl Argument for Metric {
    ghost use Rattle.study_arguments.specs.Values.{metric24};

    ghost means = { metric24 };

    fn read<A: Allocator + Copy>(_names: &Names<'_, A>, word: &[u8]) -> Result<Self, FaultKind> {
        Ok(metric24(word)?)
    }
}

impl Argument for u32 {
    ghost use Rattle.study_arguments.specs.Values.{number32};

    ghost means = { number32 };

    fn read<A: Allocator + Copy>(_names: &Names<'_, A>, word: &[u8]) -> Result<Self, FaultKind> {
        Ok(number(u32::MAX, word)?)
    }
}

impl Argument for MetricType {
    ghost use Rattle.study_arguments.specs.Values.{metric_type};

    ghost means = { metric_type };

    fn read<A: Allocator + Copy>(_names: &Names<'_, A>, word: &[u8]) -> Result<Self, FaultKind> {
        Ok(metric_type(word)?)
    }
}
