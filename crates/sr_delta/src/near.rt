//! Whether the links at a node are of the same pairs in two nets.
ghost use Rattle.std.specs.Prelude.{◌↔◌, IsTrue};
ghost use Rattle.sr_model.specs.Stay.{HasLink, HaveSameNodes};
ghost use Rattle.sr_delta.specs.Changed.{AreChangedLinks};
ghost use Rattle.sr_delta.specs.Pairs.{HasPair, HaveSamePairsAt, IsPairedIfAt};

use crate::change::Change;
use sr_graph::Graph;
use sr_labels::Net;
use sr_model::{LinkKey, NodeNo};

/// Whether the graph has a link of this key.
fn has_key(graph: &Graph, key: &LinkKey) -> bool
    ensures { IsTrue result ↔ HasLink graph.now key.now }
{
    match graph.find(key) {
        Some(_) => true,
        None => false,
    }
}

/// Whether the graph has a link of the pair of this key.
fn has_pair(graph: &Graph, key: &LinkKey) -> bool
    ensures { IsTrue result ↔ HasPair graph.now key.now }
{
    has_key(graph, key) || has_key(graph, &key.mirrored())
}

/// Whether both graphs have the pair of the changed link, or it isn't at the node.
fn is_paired_if_at(old: &Graph, new: &Graph, change: &Change, v: NodeNo) -> bool
    ensures { IsTrue result ↔ IsPairedIfAt old.now new.now change.now v.0 }
{
    change.from.0 != v.0 && change.to.0 != v.0
        || has_pair(old, &change.key) && has_pair(new, &change.key)
}

/// Whether the links that begin or end at the node are of the same pairs in both nets. Links that aren't changed are in
/// both.
pub(crate) fn same_pairs(old: &Net, new: &Net, links: &[Change], v: NodeNo) -> bool
    requires same { HaveSameNodes old.now.graph new.now.graph }
    requires links { AreChangedLinks old.now.graph new.now.graph links.now }
    ensures { IsTrue result ↔ HaveSamePairsAt old.now.graph new.now.graph v.0 }
{
    let before = old.graph();
    let after = new.graph();
    for n in 0..links.len() {
        if !is_paired_if_at(before, after, &links[n], v) {
            return false;
        }
    }
    true
}
