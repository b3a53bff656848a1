//! The lines of `differences`.

ghost use Rattle.std.specs.Prelude.{◌≡◌, ◌++◌, OnOk};
ghost use Rattle.network_names.specs.Names.{called};
ghost use Rattle.lsa_differences.specs.DifferenceTexts.{area_change_text, area_text, kind_text, lsa_change_text};

use crate::line::{AreaChange, DifferenceLine};
use lsa_changes::{LsaChange, push_change, push_front};
use lsa_codec::{Addr, AreaId};
use lsa_names::{LsaName, push_lsa_name};
use network_names::Names;
use std::alloc::{AllocError, Allocator};
use study_text::{Line, push_address, push_word};

/// Adds an area.
fn push_area<A: Allocator + Copy>(text: &mut Vec<u8, A>, area: AreaId) -> Result<(), AllocError>
    ensures { OnOk result (text.new.items ≡ text.old.items ++ area_text area) }
{
    push_word(text, "area ")?;
    push_address(text, Addr(area.0))?;
    push_word(text, ": kind ")
}

/// Adds the kind of an area.
fn push_kind<A: Allocator + Copy>(text: &mut Vec<u8, A>, is_stub: bool) -> Result<(), AllocError>
    ensures { OnOk result (text.new.items ≡ text.old.items ++ kind_text is_stub) }
{
    if is_stub {
        push_word(text, "stub")
    } else {
        push_word(text, "ordinary")
    }
}

/// Adds how an area differs, as `new area 0.0.0.1: kind stub`.
fn push_area_change<A: Allocator + Copy>(
    text: &mut Vec<u8, A>,
    area: AreaId,
    change: AreaChange,
) -> Result<(), AllocError>
    ensures { OnOk result (text.new.items ≡ text.old.items ++ area_change_text area change) }
{
    match change {
        AreaChange::New(is_stub) => {
            push_word(text, "new ")?;
            push_area(text, area)?;
            push_kind(text, is_stub)
        }
        AreaChange::Gone(is_stub) => {
            push_word(text, "gone ")?;
            push_area(text, area)?;
            push_kind(text, is_stub)
        }
        AreaChange::Kind(is_stub) => {
            push_area(text, area)?;
            push_kind(text, !is_stub)?;
            push_word(text, " -> ")?;
            push_kind(text, is_stub)
        }
    }
}

/// Adds how an LSA differs, as `area 0.0.0.0 summary 10.1.0.0/24 by r3: metric 5 -> 6`.
fn push_lsa_change<A: Allocator + Copy>(
    text: &mut Vec<u8, A>,
    names: &Names<'_, A>,
    name: &LsaName,
    change: LsaChange,
) -> Result<(), AllocError>
    ensures { OnOk result (text.new.items
        ≡ text.old.items ++ lsa_change_text (called names.now) name.now change) }
{
    push_front(text, change)?;
    push_lsa_name(text, names, name)?;
    push_word(text, ": ")?;
    push_change(text, names, change)
}

impl Line for DifferenceLine {
    ghost use Rattle.lsa_differences.specs.DifferenceTexts.{difference_text};

    ghost line_as = { difference_text };

    fn push_line<A: Allocator + Copy>(
        &self,
        text: &mut Vec<u8, A>,
        names: &Names<'_, A>,
    ) -> Result<(), AllocError> {
        match self {
            DifferenceLine::Area(area, change) => push_area_change(text, *area, *change)?,
            DifferenceLine::Lsa(name, change) => push_lsa_change(text, names, name, *change)?,
        }
        push_word(text, "\n")
    }
}
