//! Distances and next hops from each node in the whole graph.
ghost use Rattle.std.specs.Prelude.{◌≡◌, ◌+◌, ◌<◌, ◌≤◌, [], length, Some, slice_get, IfOk, OnOk};
ghost use Rattle.std.specs.Arc.{arc_value};
ghost use Rattle.sr_model.specs.Graph.{Graph as Topology, node_count, link_count};
ghost use Rattle.sr_model.specs.Walk.{Distance};
ghost use Rattle.sr_model.specs.declared.link.TheConstants.{MOST_NODES as MostNodes};
ghost use Rattle.sr_spf.specs.Carried.{IsCarried, AreCarried};
ghost use Rattle.sr_spf.specs.Hops.{AreNextHops, AreHopsFrom};
ghost use Rattle.sr_spf.specs.Trees.{AreTrees, AreHopTables, row_at, cell_at, hops_at, lists_at, tree_count, distance_of};
ghost use Rattle.sr_spf.specs.Renewed.{IsRenewal, fallen};

use crate::carried::{carried_of_all, renewed_sets};
use crate::hops::{HopTable, hops_of};
use crate::renewed::{Renewal, are_in_place, kept_tables, moved_tables, renewed_rows};
use crate::rows::rows_of;
use crate::shared::Shared;
use crate::steps::Steps;
use sr_graph::Graph;
use sr_lanes::NodeBits;
use sr_model::{FAR, LinkNo, NodeNo};
use sr_seq::Seq;
use sr_threads::{Share, made_of_each};
use std::alloc::{AllocError, Global};
use std::marker::Model;
use std::sync::Arc;
use std::sync::ledger::Ledger;
use std::thread::Threads;

/// How nodes are shared among threads: to make one costs as much as a few searches.
pub(crate) const NODES: Share = Share {
    at_once: 4,
    worth: 16,
};

/// The shortest-path trees of all nodes of a graph: the distances, and the next hops, between all of them.
#[derive(Debug, Drop)]
pub struct Trees {
    /// For each node the distance to each node, by number; `FAR` where there is no walk.
    rows: Shared<Seq<u64>>,
    hops: Shared<HopTable>,
    /// For each link, by number, the nodes towards which it is a next hop from where it begins.
    carried: Vec<NodeBits>,
}

impl Model for Trees {
    ghost use Rattle.sr_spf.specs.Trees.{Forest, IsWholeForest};

    ghost Value = { Forest };

    ghost view = { λ a. record { rows = a.rows; hops = a.hops; carried = a.carried.items } };

    ghost invariant = { λ a. IsWholeForest (record { rows = a.rows; hops = a.hops; carried = a.carried.items }) };
}

/// The next hops from each node, in threads where there are any.
fn hops_of_all(
    rt: &(impl Threads + Sync),
    alloc: Global,
    graph: &Graph,
    carried: &[NodeBits],
) -> Result<Shared<HopTable>, AllocError>
    requires { AreCarried graph.now carried.now (link_count graph.now) }
    ensures { IfOk result (λ hops. AreHopTables graph.now hops (node_count graph.now)) }
{
    let hops = |node: u32| -> Result<HopTable, AllocError>
        requires carried { AreCarried graph.now carried.now (link_count graph.now) }
        requires node { node < node_count graph.now }
        ensures { IfOk result (AreHopsFrom graph.entry.now node) }
    {
        let _count = graph.node_count();
        hops_of(alloc, graph, carried, NodeNo(node as u16))
    };
    let tables = made_of_each(rt, alloc, graph.node_count(), NODES, &hops)?;
    Shared::of(alloc, tables)
}

impl Trees {
    /// The distances and next hops from each node of the graph. One search is counted for each node. The nodes are split
    /// among threads where there are any.
    pub fn build<L: Ledger>(
        rt: &(impl Threads + Sync),
        alloc: Global,
        graph: &Graph,
        steps: &mut Steps<L>,
    ) -> Result<Trees, AllocError>
        ensures trees { IfOk result (λ t. AreTrees graph.now t) }
        ensures steps { OnOk result (steps.new ≡ steps.old + node_count graph.now) }
        ensures most { steps.new ≤ steps.old + node_count graph.now }
        ensures least { steps.old ≤ steps.new }
    {
        let rows = rows_of(rt, alloc, graph, steps)?;
        let carried = carried_of_all(alloc, graph, &rows)?;
        let hops = hops_of_all(rt, alloc, graph, &carried)?;
        Ok(Trees {
            rows,
            hops,
            carried,
        })
    }

    /// The distances and next hops from each node of a new graph. The marked trees stay, and share what stays; the searches
    /// for the others go on from the distances that stand. `links` has the new number of each link that has one. One
    /// search is counted for each tree that doesn't stay. The nodes are split among threads where there are any.
    pub fn renew<L: Ledger>(
        &self,
        rt: &(impl Threads + Sync),
        alloc: Global,
        graph: &Graph,
        renewal: &Renewal,
        links: &[Option<LinkNo>],
        steps: &mut Steps<L>,
    ) -> Result<Trees, AllocError>
        requires { IsRenewal graph.now self.now renewal.now links.now }
        ensures trees { IfOk result (λ t. AreTrees graph.now t) }
        ensures steps { OnOk result (steps.new ≡ steps.old + fallen renewal.now.stays.items) }
        ensures most { steps.new ≤ steps.old + fallen renewal.now.stays.items }
        ensures least { steps.old ≤ steps.new }
    {
        let rows = renewed_rows(rt, alloc, graph, renewal, &self.rows, steps)?;
        let carried = renewed_sets(alloc, graph, &rows, &self.carried, renewal, links)?;
        let hops = if are_in_place(links) {
            kept_tables(rt, alloc, graph, &carried, &self.hops, renewal)?
        } else {
            moved_tables(rt, alloc, graph, &carried, &self.hops, renewal, links)?
        };
        Ok(Trees {
            rows,
            hops,
            carried,
        })
    }

    /// How many nodes there are.
    pub fn node_count(&self) -> u32
        ensures count { result ≡ tree_count self.now }
        ensures few { tree_count self.now ≤ MostNodes }
    {
        self.rows.len() as u32
    }

    /// The distance from one node to another. None exactly where there is no walk.
    pub fn dist(&self, from: NodeNo, to: NodeNo) -> Option<u64>
        requires from { from.0 < tree_count self.now }
        requires to { to.0 < tree_count self.now }
        ensures cell { result ≡ distance_of (cell_at self.now from.0 to.0) }
        ensures distance { (g : Topology) → AreTrees g self.now → Distance g [] from.0 to.0 result }
    {
        let cell = self.rows.get(from.0 as usize).as_slice()[to.0 as usize];
        if cell < FAR { Some(cell) } else { None }
    }

    /// The distance from one node to each node, by number; `FAR` where there is no walk.
    pub fn cells(&self, from: NodeNo) -> &[u64]
        requires { from.0 < tree_count self.now }
        ensures cells { result.now ≡ row_at self.now.rows from.0 }
        ensures long { length result.now ≡ tree_count self.now }
    {
        self.rows.get(from.0 as usize).as_slice()
    }

    /// The distance from one node to each node, as `cells` has them, for one who keeps them beside the trees.
    pub fn held_cells(&self, from: NodeNo) -> Result<Arc<Seq<u64>>, AllocError>
        requires { from.0 < tree_count self.now }
        ensures { IfOk result (λ cells. arc_value cells ≡ row_at self.now.rows from.0) }
    {
        self.rows.held(from.0 as usize)
    }

    /// The next hops from a node.
    fn table(&self, from: NodeNo) -> &HopTable
        requires { from.0 < tree_count self.now }
        ensures table { result.now ≡ lists_at self.now.hops from.0 }
        ensures long { length result.now.starts ≡ tree_count self.now + 1 }
    {
        self.hops.get(from.0 as usize)
    }

    /// The next hops from one node to another, ascending: the links that begin a shortest walk. None where there is no
    /// walk, or the nodes are the same.
    pub fn next_hops(&self, from: NodeNo, to: NodeNo) -> &[LinkNo]
        requires from { from.0 < tree_count self.now }
        requires to { to.0 < tree_count self.now }
        ensures links { result.now ≡ hops_at self.now from.0 to.0 }
        ensures hops { (g : Topology) → AreTrees g self.now → AreNextHops g from.0 to.0 result.now }
    {
        self.table(from).towards(to)
    }

    /// The nodes towards which the link is a next hop from where it begins.
    pub fn carried(&self, link: LinkNo) -> NodeBits
        requires { link.0 < length self.now.carried }
        ensures set { slice_get self.now.carried link.0 ≡ Some result }
        ensures nodes { (g : Topology) → AreTrees g self.now → IsCarried g link.0 result }
    {
        self.carried[link.0 as usize]
    }
}
