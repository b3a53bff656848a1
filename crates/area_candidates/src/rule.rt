//! The rules that take candidates out, and those by which they are used.

ghost use Rattle.std.specs.Prelude.{◌≡◌};
ghost use Rattle.area_candidates.specs.Rules.{is_used_by, rule_text};

/// The first rule of RFC 2328 that takes a candidate out or, where none does, the one by which it
/// is used.
#[derive(Clone, Copy, Debug, PartialEq, Eq)]
pub enum Rule {
    /// Another network-LSA of the same Link State ID is in use.
    AnotherLsa,
    /// A router-LSA or network-LSA is at MaxAge.
    VertexMaxAge,
    /// The tree of the area does not reach the network or the router.
    VertexNotReached,
    /// Another network of the prefix is nearer, or as near with a greater Link State ID.
    AnotherNetwork,
    /// Another path within an area costs less.
    IntraCostsMore,
    /// It is used: no path within an area costs less.
    IntraLeastCost,
    /// The router has several areas, and this one is not the backbone.
    AreaNotExamined,
    /// A summary-LSA is at MaxAge.
    SummaryMaxAge,
    /// A summary-LSA has the metric LSInfinity.
    SummaryInfinity,
    /// The router originated the summary-LSA itself.
    SummaryItsOwn,
    /// The tree of the area does not reach the originator of a summary-LSA.
    BorderNotReached,
    /// The originator of a summary-LSA does not set bit B, and so is no area border router.
    BorderWithoutBitB,
    /// There is a path within an area.
    IntraPreferred,
    /// Another path between areas costs less.
    InterCostsMore,
    /// It is used: no path between areas costs less.
    InterLeastCost,
    /// The router has stub areas alone, into which no AS-external-LSA is flooded.
    StubAreasAlone,
    /// An AS-external-LSA is at MaxAge.
    ExternalMaxAge,
    /// An AS-external-LSA has the metric LSInfinity.
    ExternalInfinity,
    /// The router originated the AS-external-LSA itself.
    ExternalItsOwn,
    /// The originator of an AS-external-LSA is not reached as an AS boundary router.
    BoundaryNotReached,
    /// No path within the AS leads to the forwarding address.
    ForwardNotReached,
    /// There is a path within the AS.
    InsidePreferred,
    /// There is an external path of type 1, and this one is of type 2.
    Type1Preferred,
    /// Another external path has a lesser type 2 metric.
    GreaterMetric,
    /// Another external path leads through an area that is not the backbone alone.
    OtherClass,
    /// Another external path costs less.
    ExternalCostsMore,
    /// It is used: no external path is better.
    ExternalPreferred,
}

impl Rule {
    /// The section of RFC 2328 and the rule in words, as `16.2 (7) costs more`.
    pub fn text(self) -> &'static str
        ensures { result.now ≡ rule_text self }
    {
        match self {
            Rule::AnotherLsa => "16.1 another LSA of the network is used",
            Rule::VertexMaxAge => "16.1 MaxAge",
            Rule::VertexNotReached => "16.1 not reached",
            Rule::AnotherNetwork => "16.1 another network of the prefix is used",
            Rule::IntraCostsMore => "16.1 costs more",
            Rule::IntraLeastCost => "16.1 least cost",
            Rule::AreaNotExamined => "16.2 area not examined",
            Rule::SummaryMaxAge => "16.2 (1) MaxAge",
            Rule::SummaryInfinity => "16.2 (1) LSInfinity",
            Rule::SummaryItsOwn => "16.2 (2) its own",
            Rule::BorderNotReached => "16.2 (4) originator not reached",
            Rule::BorderWithoutBitB => "16.2 (4) originator without bit B",
            Rule::IntraPreferred => "16.2 (6) intra-area preferred",
            Rule::InterCostsMore => "16.2 (7) costs more",
            Rule::InterLeastCost => "16.2 (5) least cost",
            Rule::StubAreasAlone => "3.6 stub areas alone",
            Rule::ExternalMaxAge => "16.4 (1) MaxAge",
            Rule::ExternalInfinity => "16.4 (1) LSInfinity",
            Rule::ExternalItsOwn => "16.4 (2) its own",
            Rule::BoundaryNotReached => "16.4 (3) originator not reached",
            Rule::ForwardNotReached => "16.4 (3) forwarding address not reached",
            Rule::InsidePreferred => "16.4 (6) (a) inside the AS preferred",
            Rule::Type1Preferred => "16.4 (6) (b) type 1 preferred",
            Rule::GreaterMetric => "16.4 (6) (b) greater metric",
            Rule::OtherClass => "16.4 (6) (c) 16.4.1",
            Rule::ExternalCostsMore => "16.4 (6) (d) costs more",
            Rule::ExternalPreferred => "16.4 (6) preferred",
        }
    }

    /// Whether a candidate with this rule is used.
    pub fn is_used(self) -> bool
        ensures { result ≡ is_used_by self }
    {
        matches!(
            self,
            Rule::IntraLeastCost | Rule::InterLeastCost | Rule::ExternalPreferred
        )
    }
}
