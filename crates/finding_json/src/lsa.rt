//! What names LSAs.

ghost use Rattle.std.specs.Prelude.{◌≡◌, ◌++◌, OnOk};
ghost use Rattle.study_json.specs.Fields.{HaveNumbers, more_text};
ghost use Rattle.finding_json.specs.Lsas.{prefix_fields};

use lsa_codec::Prefix;
use lsa_names::LsaName;
use std::alloc::{AllocError, Allocator};
use study_json::{Document, push_first, push_next};
use study_text::push_word;

/// Adds the prefix of an LSA, if it has one, and the end of the object.
fn push_prefix<A: Allocator + Copy>(
    text: &mut Vec<u8, A>,
    net: Option<Prefix>,
) -> Result<(), AllocError>
    ensures pushed { OnOk result
        (text.new.items ≡ text.old.items ++ more_text (prefix_fields net)) }
    ensures numbers { OnOk result (HaveNumbers (prefix_fields net)) }
{
    if let Some(net) = net {
        push_next(text, "prefix", &net)?;
    }
    push_word(text, "}")
}

/// What names an LSA.
#[derive(Clone, Copy, Debug)]
pub struct NamedLsa(pub LsaName);

impl Document for NamedLsa {
    ghost use Rattle.finding_json.specs.Lsas.{lsa_json};

    ghost json_as = { λ lsa. lsa_json lsa.0 };

    fn push_json<A: Allocator + Copy>(&self, text: &mut Vec<u8, A>) -> Result<(), AllocError> {
        let name = self.0;
        push_first(text, "area", &name.area)?;
        push_next(text, "type", &u32::from(name.key.kind))?;
        push_next(text, "id", &name.key.id)?;
        push_next(text, "router", &name.key.adv)?;
        push_prefix(text, name.net)
    }
}
