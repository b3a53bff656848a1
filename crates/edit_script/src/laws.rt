//! The laws between reading and spelling.

ghost use Rattle.std.specs.Prelude.{◌≡◌, ◌≢◌, ◌↔◌, ◌<◌, ◌^◌, ℕ, List, All, Ok};
ghost use Rattle.edit_script.specs.declared.command.Command.{Command};
ghost use Rattle.edit_script.specs.declared.command.Command.TheVariants as command;
ghost use Rattle.edit_script.specs.declared.edit.Edit.{Edit};
ghost use Rattle.edit_script.specs.Line.{meaning};
ghost use Rattle.edit_script.specs.Spelling.{spelling, IsScripted, IsScriptedUnlessEvent, IsInRange, IsPrefix, Says};
ghost use Rattle.edit_script.specs.Words.{words};

use crate::edit::Edit;
use lsa_codec::{AreaId, Metric, Prefix, RouterId};

/// A line means a command in a branch exactly where the command's numbers are in the ranges of
/// their types, and the line's words are the branch's word and then the command's words. For branch
/// 0 the branch's word may be missing.
///
/// The function does nothing: its contract is the law.
pub fn reads_what_is_said()
    ensures { (line : List ℕ) (branch : ℕ) (c : Command)
        → (meaning line ≡ Ok (branch, c)) ↔ (IsInRange c × Says (words line) branch c) }
{}

/// The line of an edit that is no event means that edit, in branch 0.
///
/// The function does nothing: its contract is the law.
pub fn reads_back()
    ensures { (edit : Edit) → IsScripted edit
        → meaning (spelling edit) ≡ Ok (0, command.Edit edit) }
{}

/// The line of an edit that is no event has no line feed.
///
/// The function does nothing: its contract is the law.
pub fn spelled_on_one_line()
    ensures { (edit : Edit) → IsScripted edit → All (λ byte. byte ≢ 10) (spelling edit) }
{}

/// Each number of an edit is in the range of its type: the condition of [`reads_back`] holds for
/// every edit that is no event.
///
/// The function does nothing: its contract is the law.
pub fn edits_are_in_range(edit: &Edit)
    ensures { IsScriptedUnlessEvent edit.now }
{
    match *edit {
        Edit::Cost {
            area,
            router,
            link,
            metric,
        } => {
            places_are_in_range(area, router);
            short_numbers_are_in_range(link);
            short_numbers_are_in_range(metric);
        }
        Edit::DropLink { area, router, link } => {
            places_are_in_range(area, router);
            short_numbers_are_in_range(link);
        }
        Edit::FailLink {
            area,
            router,
            neighbor,
        } => {
            places_are_in_range(area, router);
            numbers_are_in_range(neighbor.0);
        }
        Edit::FailNet { area, network } => {
            numbers_are_in_range(area.0);
            numbers_are_in_range(network.0);
        }
        Edit::FailRouter { router } => numbers_are_in_range(router.0),
        Edit::AddStub {
            area,
            router,
            prefix,
            metric,
        } => {
            places_are_in_range(area, router);
            prefixes_are_in_range(prefix);
            short_numbers_are_in_range(metric);
        }
        Edit::Summary {
            area,
            router,
            prefix,
            metric,
        }
        | Edit::AddSummary {
            area,
            router,
            prefix,
            metric,
        } => {
            places_are_in_range(area, router);
            prefixes_are_in_range(prefix);
            metrics_are_in_range(metric);
        }
        Edit::AddExternal {
            router,
            prefix,
            metric,
            forward,
            tag,
            ..
        } => {
            numbers_are_in_range(router.0);
            prefixes_are_in_range(prefix);
            metrics_are_in_range(metric);
            numbers_are_in_range(forward.0);
            numbers_are_in_range(tag);
        }
        Edit::DropExternal { router, prefix } => {
            numbers_are_in_range(router.0);
            prefixes_are_in_range(prefix);
        }
        Edit::Refresh | Edit::Event(_) => {}
    }
}

fn places_are_in_range(area: AreaId, router: RouterId)
    ensures area { area.0 < 2 ^ 32 }
    ensures router { router.0 < 2 ^ 32 }
{}

fn prefixes_are_in_range(prefix: Prefix)
    ensures { IsPrefix prefix }
{
    let addr = prefix.addr();
    numbers_are_in_range(addr.0);
}

fn metrics_are_in_range(metric: Metric)
    ensures { metric < 2 ^ 24 }
{
    let _value = metric.value();
}

fn numbers_are_in_range(number: u32)
    ensures { number < 2 ^ 32 }
{}

fn short_numbers_are_in_range(number: u16)
    ensures { number < 2 ^ 16 }
{}
