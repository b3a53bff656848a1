//! The texts of places that are LSAs.

ghost use Rattle.std.specs.Prelude.{◌≡◌, ◌++◌, OnOk, codes};
ghost use Rattle.network_names.specs.Names.{called};
ghost use Rattle.lsa_names.specs.LsaNames.{name_text};
ghost use Rattle.study_text.specs.Shown.{shown};
ghost use Rattle.audit_places.specs.Texts.{due_text, metric_text};

use lsa_codec::RouterId;
use lsa_names::{LsaName, push_lsa_name};
use network_names::Names;
use std::alloc::{AllocError, Allocator};
use study_text::{push_number_after, push_router, push_word};

/// Adds the metric that a summary-LSA is due, or `none`.
fn push_due<A: Allocator + Copy>(text: &mut Vec<u8, A>, due: Option<u32>) -> Result<(), AllocError>
    ensures { OnOk result (text.new.items ≡ text.old.items ++ due_text due) }
{
    match due {
        Some(metric) => push_number_after(text, " due ", u64::from(metric)),
        None => push_word(text, " due none"),
    }
}

/// Adds a summary-LSA that is not there, as `area 0.0.0.0 summary 10.1.0.0/24 by r3 metric 30`.
pub(crate) fn push_not_there<A: Allocator + Copy>(
    text: &mut Vec<u8, A>,
    names: &Names<'_, A>,
    lsa: &LsaName,
    metric: u32,
) -> Result<(), AllocError>
    ensures { OnOk result (text.new.items
        ≡ text.old.items ++ (name_text (called names.now) lsa.now ++ metric_text metric)) }
{
    push_lsa_name(text, names, lsa)?;
    push_number_after(text, " metric ", u64::from(metric))
}

/// Adds a summary-LSA with another metric than it is due, as
/// `area 0.0.0.0 summary 10.1.0.0/24 by r3 metric 30 due 20`.
pub(crate) fn push_not_due<A: Allocator + Copy>(
    text: &mut Vec<u8, A>,
    names: &Names<'_, A>,
    lsa: &LsaName,
    metric: u32,
    due: Option<u32>,
) -> Result<(), AllocError>
    ensures { OnOk result (text.new.items ≡ text.old.items
        ++ (name_text (called names.now) lsa.now ++ metric_text metric ++ due_text due)) }
{
    push_not_there(text, names, lsa, metric)?;
    push_due(text, due)
}

/// Adds a router that a network-LSA lists, as `area 0.0.0.0 network 10.1.0.5 by r5 member r6`.
pub(crate) fn push_member<A: Allocator + Copy>(
    text: &mut Vec<u8, A>,
    names: &Names<'_, A>,
    lsa: &LsaName,
    router: RouterId,
) -> Result<(), AllocError>
    ensures { OnOk result (text.new.items ≡ text.old.items
        ++ (name_text (called names.now) lsa.now ++ codes " member "
        ++ shown (called names.now) router)) }
{
    push_lsa_name(text, names, lsa)?;
    push_word(text, " member ")?;
    push_router(text, names, router)
}
