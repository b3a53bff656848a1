//! What differs, and how many changes there are of each group.

ghost use Rattle.std.specs.Prelude.{◌≡◌, ◌++◌, flat_map, IfOk, OnOk};
ghost use Rattle.change_lines.specs.ChangeTexts.{counts_of, counts_text, group_count};
ghost use Rattle.change_lines.specs.Groups.{by_group, count_of, in_group};

use crate::change_name::ChangeName;
use crate::group::ChangeGroup;
use std::alloc::{AllocError, Allocator, Global};
use std::marker::Model;
use study_text::{push_number_after, push_word};
use study_words::Word;

/// What differs from a baseline, by group, then by router and prefix.
#[derive(Drop)]
pub struct Changes<A: Allocator = Global> {
    /// What differs.
    pub names: Vec<ChangeName, A>,
    /// The number of prefixes of routers for which nothing differs.
    pub unchanged: u64,
}

impl<A: Allocator> Model for Changes<A> {
    ghost use Rattle.change_lines.specs.ChangeTexts.{ChangesValue};

    ghost Value = { ChangesValue };

    ghost view = { λ c. record { names = c.names.items; unchanged = c.unchanged } };
}

/// The changes of a group, in their order.
fn in_group<A: Allocator + Copy>(
    alloc: A,
    names: &[ChangeName],
    group: ChangeGroup,
) -> Result<Vec<ChangeName, A>, AllocError>
    ensures { IfOk result (λ found. found.items ≡ in_group group names.now) }
{
    let names = names.iter().copied();
    names.filter(|name| name.is_of(group)).collect(alloc)
}

/// The changes of some groups, group after group.
fn by_group<A: Allocator + Copy>(
    alloc: A,
    names: &[ChangeName],
    groups: &[ChangeGroup],
) -> Result<Vec<ChangeName, A>, AllocError>
    ensures { IfOk result
        (λ found. found.items ≡ flat_map (λ group. in_group group names.now) groups.now) }
{
    let mut found = Vec::new(alloc);
    for group in groups {
        let mut members = in_group(alloc, names, *group)?;
        found.append(&mut members)?;
    }
    Ok(found)
}

impl<A: Allocator + Copy> Changes<A> {
    /// What differs, brought into the order of groups, and the number of prefixes for which nothing
    /// does.
    ///
    /// # Errors
    ///
    /// Memory ran out.
    pub fn by_group(
        alloc: A,
        names: &[ChangeName],
        unchanged: u64,
    ) -> Result<Changes<A>, AllocError>
        ensures { IfOk result (λ changes. changes
            ≡ record { names = by_group names.now; unchanged = unchanged }) }
    {
        let names = by_group(alloc, names, ChangeGroup::all())?;
        Ok(Changes { names, unchanged })
    }
}

/// The number of changes of a group.
pub fn count_of(names: &[ChangeName], group: ChangeGroup) -> usize
    ensures { result ≡ count_of group names.now }
{
    names.iter().filter(|name| name.is_of(group)).count()
}

/// Adds a group and the number of its changes.
fn push_count<A: Allocator + Copy>(
    text: &mut Vec<u8, A>,
    names: &[ChangeName],
    group: ChangeGroup,
) -> Result<(), AllocError>
    ensures { OnOk result (text.new.items ≡ text.old.items ++ group_count names.now group) }
{
    push_word(text, " ")?;
    push_word(text, group.text())?;
    push_number_after(text, " ", count_of(names, group) as u64)
}

/// Adds the number of changes of each of some groups.
fn push_group_counts<A: Allocator + Copy>(
    text: &mut Vec<u8, A>,
    names: &[ChangeName],
    groups: &[ChangeGroup],
) -> Result<(), AllocError>
    ensures { OnOk result
        (text.new.items ≡ text.old.items ++ flat_map (group_count names.now) groups.now) }
{
    for group in groups {
        push_count(text, names, *group)?;
    }
    Ok(())
}

/// Adds the number of changes of each of some groups, and that of prefixes without one.
#[tactic(auto, unfolding(crate::specs::ChangeTexts::counts_of))]
fn push_all_counts<A: Allocator + Copy>(
    text: &mut Vec<u8, A>,
    names: &[ChangeName],
    groups: &[ChangeGroup],
    unchanged: u64,
) -> Result<(), AllocError>
    ensures { OnOk result
        (text.new.items ≡ text.old.items ++ counts_of names.now groups.now unchanged) }
{
    push_group_counts(text, names, groups)?;
    push_number_after(text, " unchanged ", unchanged)
}

/// Adds the number of changes of each group, and that of prefixes without one, as
/// ` router-gone 0 .. unchanged 5`.
///
/// # Errors
///
/// Memory ran out. A part of the text may have been added.
pub fn push_counts<A: Allocator + Copy, B: Allocator + Copy>(
    text: &mut Vec<u8, A>,
    changes: &Changes<B>,
) -> Result<(), AllocError>
    ensures { OnOk result (text.new.items ≡ text.old.items ++ counts_text changes.now) }
{
    push_all_counts(text, &changes.names, ChangeGroup::all(), changes.unchanged)
}
