//! Keys of pairs whose links fail in a case.
ghost use Rattle.std.specs.Prelude.{◌↔◌, ◌<◌, Contains, IsTrue};
ghost use Rattle.sr_model.specs.Key.{IsSamePair};
ghost use Rattle.sr_model.specs.Graph.{link_count};
ghost use Rattle.sr_model.specs.Case.{IsCase, FailsWith, Touches, ShareGroup};
ghost use Rattle.sr_graph.specs.Failed.{HaveCommon};
ghost use Rattle.sr_delta.specs.Pairs.{IsFailingKey, IsOfFailingPair};

use sr_graph::Graph;
use sr_model::{Case, Kind, LinkKey, LinkNo, NodeNo};

/// Whether the names are those of one link or of two opposite links.
fn is_pair(one: &LinkKey, other: &LinkKey) -> bool
    ensures { IsTrue result ↔ IsSamePair one.now other.now }
{
    *one == *other || *one == other.mirrored()
}

/// Whether the link begins or ends at the node.
fn touches(graph: &Graph, link: LinkNo, node: NodeNo) -> bool
    requires { link.0 < link_count graph.now }
    ensures { IsTrue result ↔ Touches graph.now link.0 node.0 }
{
    let edge = graph.edge(link);
    edge.from.0 == node.0 || edge.to.0 == node.0
}

/// Whether the number stands in the list.
fn is_in_list(list: &[u32], number: u32) -> bool
    ensures { IsTrue result ↔ Contains list.now number }
{
    for k in 0..list.len() {
        if list[k] == number {
            return true;
        }
    }
    false
}

/// Whether some number stands in both lists.
fn have_common(one: &[u32], other: &[u32]) -> bool
    ensures { IsTrue result ↔ HaveCommon one.now other.now }
{
    for i in 0..one.len() {
        if is_in_list(other, one[i]) {
            return true;
        }
    }
    false
}

/// Whether the links share a group.
fn share_group(graph: &Graph, link: LinkNo, other: LinkNo) -> bool
    requires link { link.0 < link_count graph.now }
    requires other { other.0 < link_count graph.now }
    ensures { IsTrue result ↔ ShareGroup graph.now link.0 other.0 }
{
    have_common(graph.groups(link), graph.groups(other))
}

/// Whether the link fails in the case.
pub(crate) fn fails(graph: &Graph, case: Case, link: LinkNo) -> bool
    requires case { IsCase graph.now case }
    requires link { link.0 < link_count graph.now }
    ensures { IsTrue result ↔ FailsWith graph.now case.kind case.link.0 link.0 }
{
    let protected = case.link;
    match case.kind {
        Kind::Link => is_pair(&graph.link(link).key, &graph.link(protected).key),
        Kind::Node => touches(graph, link, graph.edge(protected).to),
        Kind::Risk => {
            is_pair(&graph.link(link).key, &graph.link(protected).key)
                || touches(graph, link, graph.edge(protected).from)
                    && share_group(graph, link, protected)
        }
    }
}

/// Whether a link of this key fails in the case.
fn is_failing_key(graph: &Graph, case: Case, key: &LinkKey) -> bool
    requires { IsCase graph.now case }
    ensures { IsTrue result ↔ IsFailingKey graph.now case key.now }
{
    match graph.find(key) {
        Some(link) => fails(graph, case, link),
        None => false,
    }
}

/// Whether the key is of the pair of a link that fails in the case.
pub(crate) fn is_of_failing_pair(graph: &Graph, case: Case, key: &LinkKey) -> bool
    requires { IsCase graph.now case }
    ensures { IsTrue result ↔ IsOfFailingPair graph.now case key.now }
{
    is_failing_key(graph, case, key) || is_failing_key(graph, case, &key.mirrored())
}
