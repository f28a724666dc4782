//! The next hops from one node.
ghost use Rattle.std.specs.Prelude.{◌≡◌, ◌+◌, ◌<◌, ◌≤◌, length, IfOk, OnOk};
ghost use Rattle.sr_model.specs.Graph.{node_count, link_count};
ghost use Rattle.sr_spf.specs.Carried.{AreCarried};
ghost use Rattle.sr_spf.specs.Hops.{hops_to, AddsNextHops, AreHopsFrom, IsCut};
ghost use Rattle.sr_spf.specs.Renewed.{moved_link, moved_links, moved_table};

use sr_graph::{Graph, LinkRange};
use sr_lanes::NodeBits;
use sr_model::{LinkNo, NodeNo};
use std::alloc::{AllocError, Global};
use std::marker::Model;

/// The next hops from one node to each node. Those towards one node stand together, ascending, and `starts` has the place
/// where those towards each node begin, and at its end the place where all end.
#[derive(Debug, Drop)]
pub(crate) struct HopTable {
    starts: Vec<u32>,
    links: Vec<LinkNo>,
}

impl Model for HopTable {
    ghost use Rattle.sr_spf.specs.Hops.{HopLists, IsCut};

    ghost Value = { HopLists };

    ghost view = { λ a. record { starts = a.starts.items; links = a.links.items } };

    ghost invariant = { λ a. IsCut (record { starts = a.starts.items; links = a.links.items }) };
}

/// The number of the link in the new graph, where the list has one, else the link itself.
fn renumbered(links: &[Option<LinkNo>], link: LinkNo) -> LinkNo
    ensures { result ≡ moved_link links.now link }
{
    let place = link.0 as usize;
    if place >= links.len() {
        return link;
    }
    match links[place] {
        Some(number) => number,
        None => link,
    }
}

/// The numbers of the links in the new graph.
fn all_renumbered(
    alloc: Global,
    list: &[LinkNo],
    links: &[Option<LinkNo>],
) -> Result<Vec<LinkNo>, AllocError>
    ensures { IfOk result (λ moved. moved.items ≡ moved_links links.now list.now) }
{
    let mut moved = Vec::with_capacity(alloc, list.len())?;
    for link in list {
        moved.push(renumbered(links, *link))?;
    }
    Ok(moved)
}

impl HopTable {
    /// The next hops that stand at these places.
    fn new(starts: Vec<u32>, links: Vec<LinkNo>) -> HopTable
        requires { IsCut (record { starts = starts.items; links = links.items }) }
        ensures { result ≡ record { starts = starts.items; links = links.items } }
    {
        HopTable { starts, links }
    }

    /// The next hops towards the node.
    pub(crate) fn towards(&self, node: NodeNo) -> &[LinkNo]
        requires { node.0 + 1 < length self.now.starts }
        ensures { result.now ≡ hops_to self.now node.0 }
    {
        let from = self.starts[node.0 as usize] as usize;
        let end = self.starts[node.0 as usize + 1] as usize;
        &self.links[from..end]
    }

    /// The same next hops, by the numbers of the links in the new graph.
    pub(crate) fn moved(
        &self,
        alloc: Global,
        links: &[Option<LinkNo>],
    ) -> Result<HopTable, AllocError>
        ensures { IfOk result (λ t. t ≡ moved_table links.now self.now) }
    {
        let mut starts = Vec::with_capacity(alloc, self.starts.len())?;
        starts.extend_from_slice(&self.starts)?;
        let moved = all_renumbered(alloc, &self.links, links)?;
        Ok(HopTable::new(starts, moved))
    }
}

/// Adds the next hops from one node to another, ascending. `carried` has the nodes towards which each link is a next hop.
fn push_hops(
    graph: &Graph,
    carried: &[NodeBits],
    from: NodeNo,
    to: NodeNo,
    links: &mut Vec<LinkNo>,
) -> Result<(), AllocError>
    requires carried { AreCarried graph.now carried.now (link_count graph.now) }
    requires from { from.0 < node_count graph.now }
    requires to { to.0 < node_count graph.now }
    ensures hops { OnOk result (AddsNextHops graph.now from.0 to.0 links.old.items links.new.items) }
    ensures few { OnOk result (length links.new.items ≤ length links.old.items + link_count graph.now) }
{
    let _count = graph.node_count();
    let LinkRange { first, end } = graph.links_from(from);
    for link in first..end {
        if carried[link as usize].has(to.0 as usize) {
            links.push(LinkNo(link))?;
        }
    }
    Ok(())
}

/// The next hops from the node to each node. `carried` has the nodes towards which each link is a next hop.
pub(crate) fn hops_of(
    alloc: Global,
    graph: &Graph,
    carried: &[NodeBits],
    node: NodeNo,
) -> Result<HopTable, AllocError>
    requires carried { AreCarried graph.now carried.now (link_count graph.now) }
    requires node { node.0 < node_count graph.now }
    ensures { IfOk result (AreHopsFrom graph.now node.0) }
{
    let count = graph.node_count();
    let mut starts = Vec::with_capacity(alloc, count as usize + 1)?;
    let mut links = Vec::new(alloc);
    starts.push(0)?;
    for to in 0..count {
        push_hops(graph, carried, node, NodeNo(to as u16), &mut links)?;
        starts.push(links.len() as u32)?;
    }
    Ok(HopTable::new(starts, links))
}
