//! What differs from a baseline.

ghost use Rattle.std.specs.Prelude.{◌≡◌, ◌∷◌, [], ◌++◌, OnOk, codes, decimal, flat_map};
ghost use Rattle.change_lines.specs.Groups.{count_of, group_text};
ghost use Rattle.study_json.specs.Fields.{HaveNumbers};
ghost use Rattle.study_json.specs.JsonText.{member_text};
ghost use Rattle.study_json.specs.Changes.{count_fields};

use crate::document::Document;
use crate::member::{push_first, push_next};
use crate::string::push_string;
use change_lines::{ChangeGroup, ChangeLine, ChangeName, Changes, PairLine, count_of};
use std::alloc::{AllocError, Allocator};
use study_text::{push_number_after, push_word};
use study_words::Word;

impl Document for ChangeGroup {
    ghost use Rattle.study_json.specs.Changes.{group_json};

    ghost json_as = { group_json };

    fn push_json<A: Allocator + Copy>(&self, text: &mut Vec<u8, A>) -> Result<(), AllocError> {
        let word = self.text();
        word.push_json(text)
    }
}

impl<B: Allocator> Document for ChangeLine<B> {
    ghost use Rattle.study_json.specs.Changes.{change_json};

    ghost json_as = { change_json };

    fn push_json<A: Allocator + Copy>(&self, text: &mut Vec<u8, A>) -> Result<(), AllocError> {
        push_first(text, "change", &self.name.group)?;
        push_next(text, "router", &self.name.router)?;
        push_next(text, "prefix", &self.name.net)?;
        push_next(text, "now", &self.now)?;
        push_next(text, "was", &self.was)?;
        push_word(text, "}")
    }
}

/// Adds the number of changes of a group, and a comma.
fn push_count<A: Allocator + Copy>(
    text: &mut Vec<u8, A>,
    names: &[ChangeName],
    group: ChangeGroup,
) -> Result<(), AllocError>
    ensures pushed { OnOk result (text.new.items ≡ text.old.items
        ++ (member_text (group_text group) (decimal (count_of group names.now)) ++ codes ",")) }
    ensures numbers { OnOk result (HaveNumbers (count_fields names.now (group ∷ []))) }
{
    push_string(text, group.text().as_bytes())?;
    push_number_after(text, ":", count_of(names, group) as u64)?;
    push_word(text, ",")
}

/// Adds the number of changes of each of some groups, each with a comma.
fn push_counts<A: Allocator + Copy>(
    text: &mut Vec<u8, A>,
    names: &[ChangeName],
    groups: &[ChangeGroup],
) -> Result<(), AllocError>
    ensures pushed { OnOk result (text.new.items ≡ text.old.items
        ++ flat_map (λ group. member_text (group_text group) (decimal (count_of group names.now))
        ++ codes ",") groups.now) }
    ensures numbers { OnOk result (HaveNumbers (count_fields names.now groups.now)) }
{
    for group in groups {
        push_count(text, names, *group)?;
    }
    Ok(())
}

/// How many changes of each group there are.
#[derive(Clone, Copy)]
pub struct Counts<'a, B: Allocator>(pub &'a Changes<B>);

impl<B: Allocator> Document for Counts<'_, B> {
    ghost use Rattle.study_json.specs.Changes.{counts_json};

    ghost json_as = { λ counts. counts_json counts.0.now };

    fn push_json<A: Allocator + Copy>(&self, text: &mut Vec<u8, A>) -> Result<(), AllocError> {
        let changes = self.0;
        push_word(text, "{")?;
        push_counts(text, &changes.names, ChangeGroup::all())?;
        push_string(text, b"unchanged")?;
        push_word(text, ":")?;
        changes.unchanged.push_json(text)?;
        push_word(text, "}")
    }
}

impl<B: Allocator> Document for PairLine<B> {
    ghost use Rattle.study_json.specs.Changes.{pair_json};

    ghost json_as = { pair_json };

    fn push_json<A: Allocator + Copy>(&self, text: &mut Vec<u8, A>) -> Result<(), AllocError> {
        push_first(text, "router", &self.pair.router)?;
        push_next(text, "prefix", &self.pair.net)?;
        push_next(text, "was", &self.was)?;
        push_next(text, "announced", &self.announced)?;
        push_word(text, "}")
    }
}
