//! Writing a dump.

ghost use Rattle.std.specs.Prelude.{◌≡◌, ◌<◌, ◌^◌, ◌++◌, length, OnOk, IfOk, option_map};
ghost use Rattle.std.specs.List.{concat};
ghost use Rattle.lsdb.specs.Slots.{full, section_of, lists_of};
ghost use Rattle.lsdb.specs.steps.View.{head_of, section_slots_of};
ghost use Rattle.lsdb.specs.Text.{text, head_text, section_text};
ghost use Rattle.lsdb.specs.BaseText.{sections_text};

use crate::database::{Database, Head, SectionOf};
use crate::lsas::Lsas;
use lsa_codec::Lsa;
use std::alloc::{AllocError, Allocator};

/// The first four bytes of a dump, `OSWP`.
pub(crate) const MAGIC: u32 = 0x4f535750;

/// The version of the format of dumps.
pub(crate) const VERSION: u8 = 1;

fn put_head<A: Allocator + Copy>(out: &mut Vec<u8, A>, area: Option<Head>) -> Result<(), AllocError>
    ensures { OnOk result (out.new.items ≡ out.old.items ++ head_text (option_map head_of area)) }
{
    let Some(area) = area else {
        return Ok(());
    };
    out.extend_from_slice(&area.id.0.to_be_bytes())?;
    out.push(if area.is_stub { 1 } else { 0 })?;
    Ok(())
}

fn put_lsas<A: Allocator + Copy>(
    out: &mut Vec<u8, A>,
    slots: &[Option<Lsa<A>>],
) -> Result<(), AllocError>
    ensures { OnOk result (out.new.items ≡ out.old.items ++ concat (full slots.now)) }
{
    for slot in slots {
        if let Some(lsa) = slot {
            out.extend_from_slice(lsa.bytes())?;
        }
    }
    Ok(())
}

/// How many LSAs the slots hold.
fn count_of<A: Allocator + Copy>(slots: &[Option<Lsa<A>>]) -> usize
    requires { length (full slots.now) < 2 ^ 16 }
    ensures { result ≡ length (full slots.now) }
{
    Lsas::of(slots).count()
}

fn put_section<A: Allocator + Copy>(
    out: &mut Vec<u8, A>,
    section: &SectionOf<A>,
) -> Result<(), AllocError>
    requires { length (full section.now.slots) < 2 ^ 16 }
    ensures { OnOk result (out.new.items
        ≡ out.old.items ++ section_text (section_of (section_slots_of section.now))) }
{
    put_head(out, section.area)?;
    let slots = section.slots.as_slice();
    let count = count_of(slots) as u16;
    out.extend_from_slice(&count.to_be_bytes())?;
    put_lsas(out, slots)
}

impl<A: Allocator + Copy> Database<A> {
    /// The dump of the database. `load` makes the same database of it.
    #[tactic(auto, unfolding(crate::specs::Text::text))]
    pub fn dump(&self) -> Result<Vec<u8, A>, AllocError>
        ensures { IfOk result (λ v. v.items ≡ text (lists_of self.now)) }
    {
        let mut out = Vec::with_capacity(self.alloc, self.size())?;
        out.extend_from_slice(&MAGIC.to_be_bytes())?;
        out.push(VERSION)?;
        self.put_sections(&mut out)?;
        Ok(out)
    }

    /// Writes how many areas there are, the areas, and the LSAs of AS scope.
    pub(crate) fn put_sections(&self, out: &mut Vec<u8, A>) -> Result<(), AllocError>
        ensures { OnOk result
            (out.new.items ≡ out.old.items ++ sections_text (lists_of self.now)) }
    {
        out.push((self.sections.len() - 1) as u8)?;
        for section in &self.sections {
            put_section(out, section)?;
        }
        Ok(())
    }
}
