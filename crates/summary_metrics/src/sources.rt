//! The summary-LSAs of the backbone, by destination.

ghost use Rattle.std.specs.Prelude.{◌≡◌, ℕ, ◌++◌, ◌∷◌, [], List, IfOk, OnOk, Some, None, map};
ghost use Rattle.std.specs.Prelude.{if◌then◌else◌};
ghost use Rattle.std.specs.BTreeMap.{get, Updates};
ghost use Rattle.lsa_codec.specs.Order.{prefix_cmp, router_cmp};
ghost use Rattle.lsa_codec.specs.Views.{net_of_summary};
ghost use Rattle.summary_metrics.specs.BackboneSummaries.{AreAnnounced, asbr_named, is_source, source_of, sources};
ghost use Rattle.summary_metrics.specs.steps.AnnouncedCosts.{more_sources};

use crate::in_order::in_order;
use crate::nets::Nets;
use lsa_codec::{ASBR_SUMMARY_LSA, LS_INFINITY, Lsa, Prefix, RouterId};
use lsdb::Lsas;
use std::alloc::{AllocError, Allocator};
use std::collections::BTreeMap;
use std::marker::Model;

/// A router that announces a destination, and its metric.
#[derive(Clone, Copy, Debug, PartialEq, Eq)]
pub(crate) struct Source {
    /// The router.
    pub(crate) originator: RouterId,
    /// The metric, below LSInfinity.
    pub(crate) metric: u32,
}

/// The routers that announce one destination, in the order of their LSAs. Contracts see them as
/// this list.
#[derive(Drop)]
pub(crate) struct Sources<A: Allocator> {
    sources: Vec<Source, A>,
}

impl<A: Allocator> Model for Sources<A> {
    ghost use Rattle.std.specs.Prelude.{List};
    ghost use Rattle.summary_metrics.specs.declared.sources.Source.{Source as AnySource};

    ghost Value = { List AnySource };

    ghost view = { λ s. s.sources.items };
}

impl<A: Allocator + Copy> Sources<A> {
    /// One source.
    fn of(alloc: A, source: Source) -> Result<Sources<A>, AllocError>
        ensures { IfOk result (λ sources. sources ≡ source ∷ []) }
    {
        let mut sources = Vec::new(alloc);
        sources.push(source)?;
        Ok(Sources { sources })
    }

    /// Adds a source.
    fn add(&mut self, source: Source) -> Result<(), AllocError>
        ensures { OnOk result (self.new ≡ self.old ++ source ∷ []) }
    {
        self.sources.push(source)?;
        Ok(())
    }

    /// The sources.
    pub(crate) fn as_slice(&self) -> &[Source]
        ensures { result.now ≡ self.now }
    {
        self.sources.as_slice()
    }
}

/// The backbone summaries while LSAs are read. Contracts see it as the result at the end.
#[derive(Drop)]
struct Draft<A: Allocator> {
    nets: BTreeMap<Prefix, Sources<A>, A>,
    asbrs: BTreeMap<RouterId, Sources<A>, A>,
}

impl<A: Allocator> Model for Draft<A> {
    ghost use Rattle.summary_metrics.specs.BackboneSummaries.{BackboneSummariesValue};

    ghost Value = { BackboneSummariesValue };

    ghost view = { λ d. record { nets = d.nets.entries; asbrs = d.asbrs.entries } };
}

/// The summaries of the backbone for prefixes and for AS boundary routers.
#[derive(Drop)]
pub(crate) struct BackboneSummaries<A: Allocator> {
    nets: Nets<A>,
    by_net: Vec<(Prefix, Sources<A>), A>,
    asbrs: BTreeMap<RouterId, Sources<A>, A>,
}

impl<A: Allocator> Model for BackboneSummaries<A> {
    ghost use Rattle.std.specs.Prelude.{◌≡◌, map};
    ghost use Rattle.summary_metrics.specs.BackboneSummaries.{BackboneSummariesValue};

    ghost Value = { BackboneSummariesValue };

    ghost view = { λ t. record { nets = t.by_net.items; asbrs = t.asbrs.entries } };

    ghost invariant = { λ t. t.nets ≡ map (λ e. e.0) t.by_net.items };
}

/// The router and metric of an LSA, if it is a live summary-LSA with a metric below LSInfinity.
fn announced_source<A: Allocator + Copy>(lsa: &Lsa<A>) -> Option<Source>
    ensures { result ≡ if is_source lsa.now then Some (source_of lsa.now) else None }
{
    let metric = lsa.summary()?.metric();
    if lsa.at_max_age() || metric >= LS_INFINITY {
        return None;
    }
    let originator = lsa.key().adv;
    Some(Source { originator, metric })
}

/// The prefix of an LSA, if it is a summary-LSA of type 3.
fn announced_net<A: Allocator + Copy>(lsa: &Lsa<A>) -> Option<Prefix>
    ensures { result ≡ net_of_summary lsa.now }
{
    lsa.summary()?.net()
}

/// The AS boundary router of an LSA, if it is a summary-LSA of type 4.
fn announced_asbr<A: Allocator + Copy>(lsa: &Lsa<A>) -> Option<RouterId>
    ensures { result ≡ asbr_named lsa.now }
{
    let key = lsa.key();
    if key.kind != ASBR_SUMMARY_LSA {
        return None;
    }
    Some(RouterId(key.id.0))
}

/// Adds a source to those of a destination.
fn add_source<K: Ord + Copy + Drop, A: Allocator + Copy>(
    alloc: A,
    summaries: &mut BTreeMap<K, Sources<A>, A>,
    key: K,
    source: Source,
) -> Result<(), AllocError>
    ensures { OnOk result (Updates K.cmp summaries.old summaries.new key
        (Some (more_sources (get K.cmp summaries.old key) source))) }
{
    match summaries.get_mut(&key) {
        Some(sources) => sources.add(source)?,
        None => {
            summaries.insert(key, Sources::of(alloc, source)?)?;
        }
    }
    Ok(())
}

/// The prefixes of entries.
fn nets_of<A: Allocator + Copy>(
    alloc: A,
    entries: &[(Prefix, Sources<A>)],
) -> Result<Vec<Prefix, A>, AllocError>
    ensures { IfOk result (λ nets. nets.items ≡ map (λ e. e.0) entries.now) }
{
    entries.iter().map(|entry| entry.0).collect(alloc)
}

impl<A: Allocator + Copy> Draft<A> {
    /// Adds an LSA, if it is a live summary-LSA with a metric below LSInfinity.
    fn add(&mut self, alloc: A, lsa: &Lsa<A>) -> Result<(), AllocError>
        ensures { OnOk result ((lsas : List (List ℕ)) → AreAnnounced lsas self.old
            → AreAnnounced (lsas ++ lsa.now ∷ []) self.new) }
    {
        let Some(source) = announced_source(lsa) else {
            return Ok(());
        };
        if let Some(net) = announced_net(lsa) {
            add_source(alloc, &mut self.nets, net, source)?;
            return Ok(());
        }
        if let Some(asbr) = announced_asbr(lsa) {
            add_source(alloc, &mut self.asbrs, asbr, source)?;
        }
        Ok(())
    }

    /// The sources of some LSAs.
    fn of(alloc: A, lsas: Lsas<'_, A>) -> Result<Draft<A>, AllocError>
        ensures { IfOk result (AreAnnounced lsas.entry) }
    {
        let mut summaries = Draft {
            nets: BTreeMap::new(alloc),
            asbrs: BTreeMap::new(alloc),
        };
        for lsa in lsas {
            summaries.add(alloc, lsa)?;
        }
        Ok(summaries)
    }

    /// The finished backbone summaries.
    fn finish(self, alloc: A) -> Result<BackboneSummaries<A>, AllocError>
        ensures { IfOk result (λ summaries. summaries ≡ self) }
    {
        let by_net = in_order(alloc, self.nets)?;
        let nets = nets_of(alloc, &by_net)?;
        Ok(BackboneSummaries {
            nets: Nets::from_sorted(nets),
            by_net,
            asbrs: self.asbrs,
        })
    }
}

impl<A: Allocator + Copy> BackboneSummaries<A> {
    /// The sources of some LSAs.
    pub(crate) fn of(alloc: A, lsas: Lsas<'_, A>) -> Result<BackboneSummaries<A>, AllocError>
        ensures { IfOk result (AreAnnounced lsas.entry) }
    {
        Draft::of(alloc, lsas)?.finish(alloc)
    }

    /// The sources for a prefix.
    pub(crate) fn of_net(&self, net: Prefix) -> &[Source]
        ensures { (lsas : List (List ℕ)) → AreAnnounced lsas self.now
            → result.now ≡ sources prefix_cmp net_of_summary lsas net }
    {
        match self.nets.place_of(net) {
            Some(place) => {
                let (_, sources) = &self.by_net[place];
                sources.as_slice()
            }
            None => &[],
        }
    }

    /// The sources for an AS boundary router.
    pub(crate) fn of_asbr(&self, asbr: RouterId) -> &[Source]
        ensures { (lsas : List (List ℕ)) → AreAnnounced lsas self.now
            → result.now ≡ sources router_cmp asbr_named lsas asbr }
    {
        match self.asbrs.get(&asbr) {
            Some(sources) => sources.as_slice(),
            None => &[],
        }
    }
}
