//! The AS-external-LSAs in use, in order of prefix.

ghost use Rattle.std.specs.Prelude.{◌≡◌, ◌++◌, [], IfOk, OnOk};
ghost use Rattle.std.specs.List.{cons_option, filter_map};
ghost use Rattle.lsdb.specs.declared.section.Section.TheVariants.{AsWide};
ghost use Rattle.lsdb.specs.Lists.{lsas_of};
ghost use Rattle.lsdb.specs.Slots.{lists_of};
ghost use Rattle.external_routes.specs.ExternalLsas.{AreExternalLsasOf, external_lsa};

use lsa_codec::{Addr, LS_INFINITY, Lsa, Prefix, RouterId};
use lsdb::{Database, Lsas, Section};
use std::alloc::{AllocError, Allocator, Global};
use std::marker::Model;

/// The fields of an AS-external-LSA (RFC 2328, A.4.5), without the tag.
#[derive(Clone, Copy, Debug)]
pub struct ExternalLsa {
    /// The prefix of the destination.
    pub(crate) net: Prefix,
    /// The router that originated the LSA.
    pub(crate) router: RouterId,
    /// Whether the metric is of type 2, larger than any cost within the AS.
    pub(crate) is_type2: bool,
    /// The metric, which is below LSInfinity.
    pub(crate) metric: u32,
    /// The forwarding address; 0 means the originator itself.
    pub(crate) forward: Addr,
}

/// The AS-external-LSAs of a database that are in use: they are live, and their metrics are below
/// LSInfinity. Contracts see them as a list.
///
/// They are kept in order of prefix, so that the paths that they offer come in this order, too, and
/// need no sort. That is for speed alone, and no contract states it. Each takes 24 bytes.
#[derive(Drop)]
pub struct ExternalLsas<A: Allocator = Global> {
    lsas: Vec<ExternalLsa, A>,
}

impl<A: Allocator> Model for ExternalLsas<A> {
    ghost use Rattle.std.specs.Prelude.{List};
    ghost use Rattle.external_routes.specs.declared.external_lsas.ExternalLsa.{ExternalLsa};

    ghost Value = { List ExternalLsa };

    ghost view = { λ s. s.lsas.items };
}

impl<A: Allocator + Copy> ExternalLsas<A> {
    /// The AS-external-LSAs of a database that are in use.
    ///
    /// # Errors
    ///
    /// Memory ran out.
    pub fn of(alloc: A, database: &Database<A>) -> Result<ExternalLsas<A>, AllocError>
        ensures { IfOk result (AreExternalLsasOf (lsas_of AsWide (lists_of database.now))) }
    {
        let mut lsas = in_use(alloc, database.lsas(Section::AsWide))?;
        lsas.sort_by_key(|lsa| lsa.net)?;
        Ok(ExternalLsas { lsas })
    }

    /// The AS-external-LSAs.
    pub(crate) fn as_slice(&self) -> &[ExternalLsa]
        ensures { result.now ≡ self.now }
    {
        self.lsas.as_slice()
    }
}

/// The fields of an LSA, if it is an AS-external-LSA in use.
fn external_lsa<A: Allocator + Copy>(lsa: &Lsa<A>) -> Option<ExternalLsa>
    ensures { result ≡ external_lsa lsa.now }
{
    let view = lsa.external()?;
    if lsa.at_max_age() || view.metric() >= LS_INFINITY {
        return None;
    }
    Some(ExternalLsa {
        net: view.net(),
        router: lsa.key().adv,
        is_type2: view.is_type2(),
        metric: view.metric(),
        forward: view.forward(),
    })
}

/// Adds an LSA, if it is an AS-external-LSA in use.
fn push_in_use<A: Allocator + Copy>(
    lsas: &mut Vec<ExternalLsa, A>,
    lsa: &Lsa<A>,
) -> Result<(), AllocError>
    ensures { OnOk result
        (lsas.new.items ≡ lsas.old.items ++ cons_option (external_lsa lsa.now) []) }
{
    if let Some(external) = external_lsa(lsa) {
        lsas.push(external)?;
    }
    Ok(())
}

/// The AS-external-LSAs in use among some LSAs, in their order.
fn in_use<A: Allocator + Copy>(
    alloc: A,
    lsas: Lsas<'_, A>,
) -> Result<Vec<ExternalLsa, A>, AllocError>
    ensures { IfOk result (λ found. found.items ≡ filter_map external_lsa lsas.entry) }
{
    let mut found = Vec::new(alloc);
    for lsa in lsas {
        push_in_use(&mut found, lsa)?;
    }
    Ok(found)
}
