//! What differs, by name.

ghost use Rattle.std.specs.Prelude.{◌≡◌, ◌++◌, OnOk};
ghost use Rattle.std.specs.Option.{option_copied};
ghost use Rattle.network_names.specs.Names.{called};
ghost use Rattle.change_lines.specs.ChangeTexts.{at_text};
ghost use Rattle.change_lines.specs.Groups.{is_of};

use crate::group::ChangeGroup;
use lsa_codec::{Prefix, RouterId};
use network_names::Names;
use std::alloc::{AllocError, Allocator};
use study_text::{Shown, push_after, push_router, push_word};
use study_words::Word;

/// What differs, by name.
#[derive(Clone, Copy, Debug, PartialEq, Eq)]
pub struct ChangeName {
    /// The group.
    pub group: ChangeGroup,
    /// The router.
    pub router: RouterId,
    /// The prefix; none where the router came or went.
    pub net: Option<Prefix>,
}

impl ChangeName {
    /// Whether the change is of a group.
    pub(crate) fn is_of(self, group: ChangeGroup) -> bool
        ensures { result ≡ is_of group self }
    {
        self.group.place() == group.place()
    }
}

/// Adds a router, and a prefix after a space, if there is one.
pub(crate) fn push_at<A: Allocator + Copy>(
    text: &mut Vec<u8, A>,
    names: &Names<'_, A>,
    router: RouterId,
    net: Option<&Prefix>,
) -> Result<(), AllocError>
    ensures { OnOk result (text.new.items
        ≡ text.old.items ++ at_text (called names.now) router (option_copied net.entry)) }
{
    push_router(text, names, router)?;
    push_after(text, names, " ", net)
}

impl Shown for ChangeName {
    ghost use Rattle.change_lines.specs.ChangeTexts.{name_text};

    ghost shown_as = { name_text };

    fn push_to<A: Allocator + Copy>(
        &self,
        text: &mut Vec<u8, A>,
        names: &Names<'_, A>,
    ) -> Result<(), AllocError> {
        push_word(text, self.group.text())?;
        push_word(text, " ")?;
        push_at(text, names, self.router, self.net.as_ref())
    }
}
