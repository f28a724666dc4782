//! The nodes towards which each link is a next hop, as sets.
ghost use Rattle.std.specs.Prelude.{◌≡◌, ℕ, ◌<◌, length, IfOk, IfSome};
ghost use Rattle.sr_lanes.specs.Bits.{is_in};
ghost use Rattle.sr_model.specs.Graph.{node_count, link_count, carries};
ghost use Rattle.sr_spf.specs.Carried.{IsCarried, AreCarried};
ghost use Rattle.sr_spf.specs.Renewed.{AreStayingSets};
ghost use Rattle.sr_spf.specs.Trees.{AreRows};

use crate::renewed::Renewal;
use crate::shared::Shared;
use sr_graph::Graph;
use sr_lanes::{NodeBits, finite, tight};
use sr_model::{LinkNo, NodeNo};
use sr_seq::Seq;
use std::alloc::{AllocError, Global};

/// The nodes at which a walk may end that reaches this node: all, or the node alone where it is overloaded (ISO 10589,
/// 7.2.8.1).
pub fn ends_behind(graph: &Graph, node: NodeNo) -> NodeBits
    requires { node.0 < node_count graph.now }
    ensures { (v : ℕ) → v < node_count graph.now → is_in result v ≡ carries graph.now v node.0 }
{
    let count = graph.node_count();
    if graph.overloaded(node) {
        NodeBits::none().with(node.0 as usize)
    } else {
        NodeBits::below(count as usize)
    }
}

/// The nodes towards which the link is a next hop from where it begins.
fn carried_over(graph: &Graph, rows: &Shared<Seq<u64>>, link: LinkNo) -> NodeBits
    requires rows { AreRows graph.now rows.now (node_count graph.now) }
    requires link { link.0 < link_count graph.now }
    ensures { IsCarried graph.now link.0 result }
{
    let edge = graph.edge(link);
    let row = rows.get(edge.from.0 as usize).as_slice();
    let rest = rows.get(edge.to.0 as usize).as_slice();
    let near = finite(row);
    let fits = tight(row, edge.metric as u64, rest);
    fits.and(near).and(ends_behind(graph, edge.to))
}

/// For each link, by number, the nodes towards which it is a next hop from where it begins.
pub(crate) fn carried_of_all(
    alloc: Global,
    graph: &Graph,
    rows: &Shared<Seq<u64>>,
) -> Result<Vec<NodeBits>, AllocError>
    requires { AreRows graph.now rows.now (node_count graph.now) }
    ensures { IfOk result (λ sets. AreCarried graph.now sets.items (link_count graph.now)) }
{
    let count = graph.link_count();
    let mut sets = Vec::with_capacity(alloc, count as usize)?;
    for link in 0..count as u16 {
        sets.push(carried_over(graph, rows, LinkNo(link)))?;
    }
    Ok(sets)
}

/// The old set of the link, where the link has the number that it had, and the tree stays of the node where it begins.
fn kept_set(
    graph: &Graph,
    old: &[NodeBits],
    renewal: &Renewal,
    links: &[Option<LinkNo>],
    link: LinkNo,
) -> Option<NodeBits>
    requires old { AreStayingSets graph.now old.now renewal.now.stays.items links.now }
    requires marks { length renewal.now.stays.items ≡ node_count graph.now }
    requires link { link.0 < link_count graph.now }
    ensures { IfSome result (IsCarried graph.now link.0) }
{
    let place = link.0 as usize;
    if place >= links.len() || place >= old.len() {
        return None;
    }
    if !renewal.stays[graph.edge(link).from.0 as usize] {
        return None;
    }
    match links[place] {
        Some(number) if number.0 == link.0 => Some(old[place]),
        _ => None,
    }
}

/// The nodes towards which the link is a next hop from where it begins: its old set where that stays.
fn renewed_set(
    graph: &Graph,
    rows: &Shared<Seq<u64>>,
    old: &[NodeBits],
    renewal: &Renewal,
    links: &[Option<LinkNo>],
    link: LinkNo,
) -> NodeBits
    requires rows { AreRows graph.now rows.now (node_count graph.now) }
    requires old { AreStayingSets graph.now old.now renewal.now.stays.items links.now }
    requires marks { length renewal.now.stays.items ≡ node_count graph.now }
    requires link { link.0 < link_count graph.now }
    ensures { IsCarried graph.now link.0 result }
{
    match kept_set(graph, old, renewal, links, link) {
        Some(set) => set,
        None => carried_over(graph, rows, link),
    }
}

/// For each link of a new graph, by number, the nodes towards which it is a next hop from where it begins: the old sets
/// where they stay.
pub(crate) fn renewed_sets(
    alloc: Global,
    graph: &Graph,
    rows: &Shared<Seq<u64>>,
    old: &[NodeBits],
    renewal: &Renewal,
    links: &[Option<LinkNo>],
) -> Result<Vec<NodeBits>, AllocError>
    requires rows { AreRows graph.now rows.now (node_count graph.now) }
    requires old { AreStayingSets graph.now old.now renewal.now.stays.items links.now }
    requires marks { length renewal.now.stays.items ≡ node_count graph.now }
    ensures { IfOk result (λ sets. AreCarried graph.now sets.items (link_count graph.now)) }
{
    let count = graph.link_count();
    let mut sets = Vec::with_capacity(alloc, count as usize)?;
    for link in 0..count as u16 {
        sets.push(renewed_set(graph, rows, old, renewal, links, LinkNo(link)))?;
    }
    Ok(sets)
}
