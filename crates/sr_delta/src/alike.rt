//! Which nodes announce the same in two nets.
ghost use Rattle.std.specs.Prelude.{◌≡◌, ◌↔◌, ℕ, ◌<◌, ◌==◌, ◌||◌, if◌then◌else◌, is_some, IsTrue};
ghost use Rattle.sr_lanes.specs.Bits.{is_in};
ghost use Rattle.sr_model.specs.Graph.{node_count, link_count};
ghost use Rattle.sr_model.specs.Label.{adj_at};
ghost use Rattle.sr_model.specs.Stay.{HaveSameName, HaveSameNodes, HasSameDepth};
ghost use Rattle.sr_laws.specs.Steady.{HasSameSegments};
ghost use Rattle.sr_lanes.specs.declared.limits.TheConstants.{NODES_AT_MOST as Most};
ghost use Rattle.sr_delta.specs.Partners.{IsPartner, ArePartners};
ghost use Rattle.sr_delta.specs.Changed.{AreChangedLinks};
ghost use Rattle.sr_delta.specs.Alike.{HasSameAdj, HasSameLabels, IsIndexedAlike, AreAlike};

use crate::change::Change;
use crate::grouped::grouped_alike;
use crate::near::same_pairs;
use sr_graph::LinkRange;
use sr_labels::{Net, NodeLabels};
use sr_lanes::NodeBits;
use sr_model::{LinkNo, NodeNo};
use std::marker::Model;

/// The nodes that have the same index, flags and adjacency labels in two nets, those that have the same index and
/// adjacency labels whatever their flags, those that have an index in both nets or in neither, those with the same
/// maximum SID depth (MSD), those whose links are of the same pairs, and nodes whose links are of the same keys and in
/// the same risk groups.
#[derive(Debug, Drop)]
pub(crate) struct Alike {
    labels: NodeBits,
    segments: NodeBits,
    indexed: NodeBits,
    depths: NodeBits,
    pairs: NodeBits,
    groups: NodeBits,
}

impl Model for Alike {
    ghost use Rattle.sr_delta.specs.Alike.{Likeness};

    ghost Value = { Likeness };

    ghost view = { λ a.
        record {
          labels = a.labels;
          segments = a.segments;
          indexed = a.indexed;
          depths = a.depths;
          pairs = a.pairs;
          groups = a.groups;
        } };
}

impl Alike {
    /// No node: what is told of nets whose nodes differ.
    pub(crate) fn none() -> Alike {
        Alike {
            labels: NodeBits::none(),
            segments: NodeBits::none(),
            indexed: NodeBits::none(),
            depths: NodeBits::none(),
            pairs: NodeBits::none(),
            groups: NodeBits::none(),
        }
    }

    /// The nodes with the same index, flags and adjacency labels.
    pub(crate) fn labels(&self) -> NodeBits
        ensures { result ≡ self.now.labels }
    {
        self.labels
    }

    /// The nodes with the same index and adjacency labels.
    pub(crate) fn segments(&self) -> NodeBits
        ensures { result ≡ self.now.segments }
    {
        self.segments
    }

    /// The nodes that have an index in both nets, or in neither.
    pub(crate) fn indexed(&self) -> NodeBits
        ensures { result ≡ self.now.indexed }
    {
        self.indexed
    }

    /// The nodes with the same MSD.
    pub(crate) fn depths(&self) -> NodeBits
        ensures { result ≡ self.now.depths }
    {
        self.depths
    }

    /// The nodes whose links are of the same pairs.
    pub(crate) fn pairs(&self) -> NodeBits
        ensures { result ≡ self.now.pairs }
    {
        self.pairs
    }

    /// Nodes whose links are of the same keys and in the same risk groups.
    pub(crate) fn groups(&self) -> NodeBits
        ensures { result ≡ self.now.groups }
    {
        self.groups
    }
}

/// Whether the labels are the same, or neither is there.
fn same_label(a: Option<u32>, b: Option<u32>) -> bool
    ensures { IsTrue result ↔ (a ≡ b) }
{
    a == b
}

/// Whether the adjacency label of the link is that of its partner, if it has one.
fn same_adj_on(old: &Net, new: &Net, link: LinkNo, partner: Option<LinkNo>) -> bool
    requires link { link.0 < link_count old.now.graph }
    requires partner { IsPartner old.now.graph new.now.graph link.0 partner }
    ensures { IsTrue result ↔ ((k : ℕ) → HaveSameName old.now.graph new.now.graph link.0 k
        → adj_at old.now link.0 ≡ adj_at new.now k) }
{
    match partner {
        None => true,
        Some(other) => same_label(old.adj(link), new.adj(other)),
    }
}

/// Whether the adjacency labels of the node's links that are in both nets are the same.
fn same_adj(old: &Net, new: &Net, partners: &[Option<LinkNo>], v: NodeNo) -> bool
    requires partners { ArePartners old.now.graph new.now.graph partners.now }
    requires v { v.0 < node_count old.now.graph }
    ensures { IsTrue result ↔ HasSameAdj old.now new.now v.0 }
{
    let LinkRange { first, end } = old.graph().links_from(v);
    for l in first..end {
        if !same_adj_on(old, new, LinkNo(l), partners[l as usize]) {
            return false;
        }
    }
    true
}

/// Whether the node has the same segments in both nets.
fn same_segments(old: &Net, new: &Net, partners: &[Option<LinkNo>], v: NodeNo) -> bool
    requires partners { ArePartners old.now.graph new.now.graph partners.now }
    requires old { v.0 < node_count old.now.graph }
    requires new { v.0 < node_count new.now.graph }
    ensures { IsTrue result ↔ HasSameSegments old.now new.now v.0 }
{
    old.labels(v).index() == new.labels(v).index() && same_adj(old, new, partners, v)
}

/// Whether the flags are the same.
fn same_flags(old: &NodeLabels, new: &NodeLabels) -> bool
    ensures { IsTrue result ↔ ((old.now.keep ≡ new.now.keep) × (old.now.explicit ≡ new.now.explicit)) }
{
    old.keep() == new.keep() && old.explicit() == new.explicit()
}

/// Whether the node has the same labels in both nets. `segments` says whether its segments are the same.
fn same_labels(old: &Net, new: &Net, v: NodeNo, segments: bool) -> bool
    requires old { v.0 < node_count old.now.graph }
    requires new { v.0 < node_count new.now.graph }
    requires segments { IsTrue segments ↔ HasSameSegments old.now new.now v.0 }
    ensures { IsTrue result ↔ HasSameLabels old.now new.now v.0 }
{
    segments && same_flags(old.labels(v), new.labels(v))
}

/// Whether the node has an index in both nets, or in neither.
fn same_indexed(old: &Net, new: &Net, v: NodeNo) -> bool
    requires old { v.0 < node_count old.now.graph }
    requires new { v.0 < node_count new.now.graph }
    ensures { IsTrue result ↔ IsIndexedAlike old.now new.now v.0 }
{
    old.labels(v).index().is_some() == new.labels(v).index().is_some()
}

/// Whether the node announces the same MSD in both nets, or none in either and the nets have the same depth.
fn same_depth(old: &Net, new: &Net, v: NodeNo) -> bool
    requires old { v.0 < node_count old.now.graph }
    requires new { v.0 < node_count new.now.graph }
    ensures { IsTrue result ↔ HasSameDepth old.now new.now v.0 }
{
    match old.labels(v).imposes() {
        Some(before) => match new.labels(v).imposes() {
            Some(after) => before == after,
            None => false,
        },
        None => match new.labels(v).imposes() {
            Some(_) => false,
            None => old.depth() == new.depth(),
        },
    }
}

/// The set with the node, if the test says yes.
fn put(set: NodeBits, v: NodeNo, test: bool) -> NodeBits
    requires { v.0 < Most }
    ensures { (u : ℕ) → is_in result u ≡ (if u == v.0 then (is_in set u || test) else is_in set u) }
{
    if test { set.with(v.0 as usize) } else { set }
}

/// Which nodes are alike in both nets. `partners` are those of the old links, `origins` those of the new ones, and `links`
/// are the changed ones.
pub(crate) fn all_alike(
    old: &Net,
    new: &Net,
    partners: &[Option<LinkNo>],
    origins: &[Option<LinkNo>],
    links: &[Change],
) -> Alike
    requires same { HaveSameNodes old.now.graph new.now.graph }
    requires partners { ArePartners old.now.graph new.now.graph partners.now }
    requires origins { ArePartners new.now.graph old.now.graph origins.now }
    requires links { AreChangedLinks old.now.graph new.now.graph links.now }
    ensures { AreAlike old.now new.now (node_count old.now.graph) result }
{
    let mut labels = NodeBits::none();
    let mut segments = NodeBits::none();
    let mut indexed = NodeBits::none();
    let mut depths = NodeBits::none();
    let mut pairs = NodeBits::none();
    for v in 0..old.graph().node_count() as u16 {
        let node = NodeNo(v);
        let same = same_segments(old, new, partners, node);
        segments = put(segments, node, same);
        labels = put(labels, node, same_labels(old, new, node, same));
        indexed = put(indexed, node, same_indexed(old, new, node));
        depths = put(depths, node, same_depth(old, new, node));
        pairs = put(pairs, node, same_pairs(old, new, links, node));
    }
    Alike {
        labels,
        segments,
        indexed,
        depths,
        pairs,
        groups: grouped_alike(old.graph(), new.graph(), partners, origins),
    }
}
