//! LSAs on which a route rests, as `rests on area 0.0.0.0 router r1`.

ghost use Rattle.std.specs.Prelude.{◌≡◌};
ghost use Rattle.explanation.specs.Texts.{rest_name};
ghost use Rattle.explanation.specs.WaySteps.{rest_of};

use lsa_codec::{AreaId, Key, Prefix};
use lsa_names::{LsaName, push_lsa_name};
use network_names::Names;
use std::alloc::{AllocError, Allocator};
use study_text::{Line, push_word};

/// An LSA on which a route rests. They are ordered by area, those of AS scope last, by LS type, by
/// Link State ID and by Advertising Router.
#[derive(Clone, Copy, Debug, PartialEq, Eq, PartialOrd, Ord)]
pub struct Rest {
    /// Whether the LSA has AS scope.
    pub is_as_wide: bool,
    /// Its area, and area 0 where it has AS scope.
    pub area: AreaId,
    /// LS type, Link State ID and Advertising Router.
    pub key: Key,
    /// The prefix, where its type has one.
    pub net: Option<Prefix>,
}

impl Rest {
    /// An LSA with this name.
    pub fn of(name: LsaName) -> Rest
        ensures { result ≡ rest_of name }
    {
        let (is_as_wide, area) = match name.area {
            Some(area) => (false, area),
            None => (true, AreaId(0)),
        };
        Rest {
            is_as_wide,
            area,
            key: name.key,
            net: name.net,
        }
    }

    /// Its name.
    pub fn name(&self) -> LsaName
        ensures { result ≡ rest_name self.now }
    {
        LsaName {
            area: if self.is_as_wide {
                None
            } else {
                Some(self.area)
            },
            key: self.key,
            net: self.net,
        }
    }
}

impl Line for Rest {
    ghost use Rattle.explanation.specs.Texts.{rest_line};

    ghost line_as = { rest_line };

    fn push_line<A: Allocator + Copy>(
        &self,
        text: &mut Vec<u8, A>,
        names: &Names<'_, A>,
    ) -> Result<(), AllocError> {
        push_word(text, "rests on ")?;
        push_lsa_name(text, names, &self.name())?;
        push_word(text, "\n")
    }
}
