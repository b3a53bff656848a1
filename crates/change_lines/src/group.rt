//! The groups of changes.

ghost use Rattle.std.specs.Prelude.{◌≡◌};
ghost use Rattle.change_lines.specs.Groups.{place_of};

use study_words::Word;

/// A group of changes, as `changes` shows them.
#[derive(Clone, Copy, Debug, PartialEq, Eq)]
pub enum ChangeGroup {
    /// A router is attached to areas in the baseline alone.
    RouterGone,
    /// A router is attached to areas now alone.
    RouterNew,
    /// An entry that a router has no more, though somebody announces the prefix.
    Lost,
    /// An entry that a router has no more, since nobody announces the prefix.
    Gone,
    /// An entry that a router has now alone.
    Gained,
    /// An entry of another kind.
    OtherKind,
    /// An entry of the same kind that costs more.
    Dearer,
    /// An entry of the same kind that costs less.
    Cheaper,
    /// An entry of the same kind and cost that leads another way.
    Moved,
}

/// The groups in the order of a reply, each with its place and its word, handed to a macro.
macro_rules! change_groups {
    ($take:ident $($group:tt)?) => {
        $take!($($group)?
            RouterGone 0 "router-gone"
            RouterNew 1 "router-new"
            Lost 2 "lost"
            Gone 3 "gone"
            Gained 4 "gained"
            OtherKind 5 "type"
            Dearer 6 "dearer"
            Cheaper 7 "cheaper"
            Moved 8 "moved"
        )
    };
}

macro_rules! list_of {
    ($($name:ident $place:literal $text:literal)*) => { &[$(ChangeGroup::$name),*] };
}

macro_rules! text_of {
    ($group:tt $($name:ident $place:literal $text:literal)*) => {
        match $group {
            $(ChangeGroup::$name => $text),*
        }
    };
}

macro_rules! place_of {
    ($group:tt $($name:ident $place:literal $text:literal)*) => {
        match $group {
            $(ChangeGroup::$name => $place),*
        }
    };
}

impl ChangeGroup {
    /// The place of the group in the order of a reply.
    pub(crate) fn place(self) -> u8
        ensures { result ≡ place_of self }
    {
        change_groups!(place_of self)
    }
}

impl Word for ChangeGroup {
    ghost use Rattle.change_lines.specs.Groups.{change_groups, group_text};

    ghost all = { change_groups };

    ghost spelled = { group_text };

    fn all() -> &'static [ChangeGroup] {
        change_groups!(list_of)
    }

    fn text(self) -> &'static str {
        change_groups!(text_of self)
    }
}
