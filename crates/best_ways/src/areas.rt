//! Lists of areas.

ghost use Rattle.std.specs.Prelude.{◌≡◌, [], ◌∷◌, ◌++◌, IfOk, OnOk, OnErr};
ghost use Rattle.area_graph.specs.Rising.{rising};
ghost use Rattle.lsa_codec.specs.Order.{area_cmp};
ghost use Rattle.best_ways.specs.Order.{AreSortedAreas};

use lsa_codec::AreaId;
use std::alloc::{AllocError, Allocator, Global};
use std::marker::Model;

/// How areas are kept: no area or one takes no memory.
#[derive(Drop)]
enum Kept<A: Allocator> {
    Nothing,
    One([AreaId; 1]),
    Several(Vec<AreaId, A>),
}

/// Areas in rising order, each once. Contracts see it as this list.
///
/// One area is stored in the value itself and takes no memory.
#[derive(Drop)]
pub struct AreaList<A: Allocator = Global> {
    alloc: A,
    kept: Kept<A>,
}

impl<A: Allocator> Model for AreaList<A> {
    ghost use Rattle.std.specs.Prelude.{List};
    ghost use Rattle.lsa_codec.specs.declared.address.AreaId.{AreaId};
    ghost use Rattle.best_ways.specs.Order.{AreSortedAreas};
    ghost use Rattle.best_ways.specs.steps.KeptAreas.{areas_in};

    ghost Value = { List AreaId };

    ghost view = { λ a. areas_in a.kept };

    ghost invariant = { λ a. AreSortedAreas (areas_in a.kept) };
}

impl<A: Allocator + Copy> AreaList<A> {
    /// No areas. It takes no memory.
    pub fn new(alloc: A) -> AreaList<A>
        ensures { result ≡ [] }
    {
        AreaList {
            alloc,
            kept: Kept::Nothing,
        }
    }

    /// One area. It takes no memory.
    pub fn of_one(alloc: A, area: AreaId) -> AreaList<A>
        ensures { result ≡ area ∷ [] }
    {
        AreaList {
            alloc,
            kept: Kept::One([area]),
        }
    }

    /// The areas in rising order, each once.
    pub fn as_slice(&self) -> &[AreaId]
        ensures areas { result.now ≡ self.now }
        ensures sorted { AreSortedAreas self.now }
    {
        match &self.kept {
            Kept::Nothing => &[],
            Kept::One(areas) => areas,
            Kept::Several(areas) => areas.as_slice(),
        }
    }

    /// Adds an area, unless it is there.
    ///
    /// # Errors
    ///
    /// Memory ran out; the list is as before.
    pub fn add(&mut self, area: AreaId) -> Result<(), AllocError>
        ensures added { OnOk result (self.new ≡ rising area_cmp (self.old ++ area ∷ [])) }
        ensures same { OnErr result (self.new ≡ self.old) }
    {
        match &mut self.kept {
            Kept::Nothing => self.kept = Kept::One([area]),
            Kept::One(areas) => {
                let only = areas[0];
                if only != area {
                    self.kept = Kept::Several(both(self.alloc, only, area)?);
                }
            }
            Kept::Several(areas) => insert(areas, area)?,
        }
        Ok(())
    }
}

/// Two areas in rising order.
fn both<A: Allocator + Copy>(
    alloc: A,
    one: AreaId,
    other: AreaId,
) -> Result<Vec<AreaId, A>, AllocError>
    ensures both { IfOk result (λ both. both.items ≡ rising area_cmp (one ∷ other ∷ [])) }
    ensures sorted { IfOk result (λ both. AreSortedAreas both.items) }
{
    let mut both = Vec::new(alloc);
    insert(&mut both, one)?;
    insert(&mut both, other)?;
    Ok(both)
}

/// Adds an area to others, unless it is there, and puts them in rising order.
fn insert<A: Allocator + Copy>(areas: &mut Vec<AreaId, A>, area: AreaId) -> Result<(), AllocError>
    ensures added { OnOk result
        (areas.new.items ≡ rising area_cmp (areas.old.items ++ area ∷ [])) }
    ensures sorted { OnOk result (AreSortedAreas areas.new.items) }
    ensures same { OnErr result (areas.new.items ≡ areas.old.items) }
{
    areas.push(area)?;
    areas.sort_unstable();
    areas.dedup();
    Ok(())
}
