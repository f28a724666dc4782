//! The graph: how it is built, and what it answers.
ghost use Rattle.std.specs.Prelude.{◌≡◌, ◌≢◌, ◌↔◌, [], ℕ, ◌<◌, true, IfSome, IfNone, IfOk, IfErr};
ghost use Rattle.sr_model.specs.declared.link.NodeNo.{NodeNo as Node};
ghost use Rattle.sr_model.specs.declared.link.LinkNo.{LinkNo as Number};
ghost use Rattle.sr_model.specs.Graph.{node_count, link_count, link_at, tail, head, metric, system_at, groups_at, is_overloaded, carries, IsGraph, IsNamed, IsGrouped};
ghost use Rattle.sr_model.specs.Case.{ShareGroup};
ghost use Rattle.sr_graph.specs.Draft.{IsDraft, AreSorted, IsAcceptedDraft, IsRefusal};
ghost use Rattle.sr_graph.specs.Built.{IsBuilt};
ghost use Rattle.sr_graph.specs.Ranges.{HoldsLinks, EndAt};

use crate::draft::{Draft, DraftLink};
use crate::edges::{Edge, edges_of};
use crate::fault::GraphFault;
use crate::incoming::lists_by_end;
use crate::link_bits::LinkBits;
use crate::link_set::LinkSet;
use crate::numbers::{find, node_number, number_all};
use crate::order::{refusal, sort};
use crate::ranges::{LinkRange, starts};
use crate::sharing::sharing;
use sr_model::{Link, LinkKey, LinkNo, NodeNo, SystemId};
use sr_seq::Seq;
use std::alloc::{AllocError, Global};
use std::marker::Model;

/// A directed graph with metrics. Nodes are numbered from 0 in order of system id, links from 0 in order of key.
#[derive(Debug, Drop)]
pub struct Graph {
    pub(crate) systems: Vec<SystemId>,
    pub(crate) links: Vec<Link>,
    pub(crate) edges: Vec<Edge>,
    pub(crate) groups: Vec<Seq<u32>>,
    pub(crate) overloaded: Vec<bool>,
    pub(crate) starts: Vec<u16>,
    pub(crate) incoming: Vec<Seq<LinkNo>>,
    pub(crate) sharing: Vec<LinkBits>,
}

impl Model for Graph {
    ghost use Rattle.sr_model.specs.Graph.{Graph as Topology};
    ghost use Rattle.sr_graph.specs.Built.{IsLaidOut};

    ghost Value = { Topology };

    ghost view = { λ a.
        record { systems = a.systems.items; links = a.links.items; groups = a.groups.items; overloaded = a.overloaded.items } };

    ghost invariant = { λ a.
        IsLaidOut (record { systems = a.systems.items; links = a.links.items; groups = a.groups.items; overloaded = a.overloaded.items })
        a.edges.items a.starts.items a.incoming.items a.sharing.items };
}

impl Graph {
    /// The graph of the draft, with no node overloaded. It keeps the draft's nodes and links, links in order of key.
    ///
    /// Refused is, in this order and with the least ends, a link of metric 0, two links of one key, more than 256 nodes,
    /// and more than 2,048 links.
    pub fn build(alloc: Global, draft: Draft) -> Result<Graph, GraphFault>
        requires { IsDraft draft }
        ensures built { IfOk result (IsBuilt draft) }
        ensures accepted { IfOk result (λ _. IsAcceptedDraft draft.nodes draft.links) }
        ensures refused { IfErr result (IsRefusal draft.nodes draft.links) }
    {
        let Draft { nodes, links } = draft;
        let systems = nodes.into_vec();
        let mut links = links.into_vec();
        sort(&mut links);
        if let Some(fault) = refusal(&systems, &links) {
            return Err(fault);
        }
        match Graph::assemble(alloc, systems, links) {
            Ok(graph) => Ok(graph),
            Err(fault) => Err(GraphFault::Memory(fault)),
        }
    }

    /// The graph of these nodes and sorted links.
    fn assemble(
        alloc: Global,
        systems: Vec<SystemId>,
        links: Vec<DraftLink>,
    ) -> Result<Graph, AllocError>
        requires draft { IsDraft (record { nodes = systems.items; links = links.items }) }
        requires accepted { IsAcceptedDraft systems.items links.items }
        requires sorted { AreSorted links.items }
        ensures { IfOk result (IsBuilt (record { nodes = systems.items; links = links.items })) }
    {
        let numbered = number_all(alloc, &systems, links)?;
        let starts = starts(alloc, &numbered.links, systems.len())?;
        let edges = edges_of(alloc, &numbered.links)?;
        let incoming = lists_by_end(alloc, &edges, systems.len())?;
        let sharing = sharing(alloc, &numbered.groups)?;
        Ok(Graph {
            systems,
            links: numbered.links,
            edges,
            groups: numbered.groups,
            overloaded: Vec::new(alloc),
            starts,
            incoming,
            sharing,
        })
    }

    /// How many nodes there are.
    pub fn node_count(&self) -> u32
        ensures count { result ≡ node_count self.now }
        ensures graph { IsGraph self.now }
        ensures named { IsNamed self.now }
        ensures grouped { IsGrouped self.now }
    {
        self.systems.len() as u32
    }

    /// How many directed links there are.
    pub fn link_count(&self) -> u32
        ensures count { result ≡ link_count self.now }
        ensures graph { IsGraph self.now }
        ensures named { IsNamed self.now }
        ensures grouped { IsGrouped self.now }
    {
        self.links.len() as u32
    }

    /// The system id of the node.
    pub fn system(&self, node: NodeNo) -> SystemId
        requires { node.0 < node_count self.now }
        ensures system { result ≡ system_at self.now node.0 }
        ensures named { IsNamed self.now }
    {
        self.systems[node.0 as usize]
    }

    /// The link of this number.
    pub fn link(&self, link: LinkNo) -> Link
        requires { link.0 < link_count self.now }
        ensures link { result ≡ link_at self.now link.0 }
        ensures graph { IsGraph self.now }
        ensures named { IsNamed self.now }
    {
        self.links[link.0 as usize]
    }

    /// The nodes at the link's ends, and its metric.
    pub fn edge(&self, link: LinkNo) -> Edge
        requires { link.0 < link_count self.now }
        ensures from { result.from.0 ≡ tail self.now link.0 }
        ensures to { result.to.0 ≡ head self.now link.0 }
        ensures metric { result.metric ≡ metric self.now link.0 }
        ensures graph { IsGraph self.now }
    {
        self.edges[link.0 as usize]
    }

    /// The shared-risk groups of the link, ascending.
    pub fn groups(&self, link: LinkNo) -> &[u32]
        requires { link.0 < link_count self.now }
        ensures groups { result.now ≡ groups_at self.now link.0 }
        ensures grouped { IsGrouped self.now }
    {
        self.groups[link.0 as usize].as_slice()
    }

    /// Whether the links share a group.
    pub(crate) fn shares(&self, link: LinkNo, other: LinkNo) -> bool
        requires link { link.0 < link_count self.now }
        requires other { other.0 < link_count self.now }
        ensures { (result ≡ true) ↔ ShareGroup self.now link.0 other.0 }
    {
        let place = other.0 as usize;
        place < self.sharing.len() && self.sharing[place].has(link)
    }

    /// The node of this system id. None exactly where the graph has none.
    pub fn node(&self, system: SystemId) -> Option<NodeNo>
        ensures found { IfSome result (λ (node : Node).
            (node.0 < node_count self.now) × (system_at self.now node.0 ≡ system)) }
        ensures none { IfNone result ((v : ℕ) → v < node_count self.now → system_at self.now v ≢ system) }
        ensures named { IsNamed self.now }
    {
        node_number(&self.systems, system)
    }

    /// The link of this key. None exactly where the graph has none.
    pub fn find(&self, key: &LinkKey) -> Option<LinkNo>
        ensures found { IfSome result (λ (link : Number).
            (link.0 < link_count self.now) × ((link_at self.now link.0).key ≡ key.now)) }
        ensures none { IfNone result ((l : ℕ) → l < link_count self.now → (link_at self.now l).key ≢ key.now) }
        ensures named { IsNamed self.now }
    {
        find(&self.links, key)
    }

    /// The links that begin at the node.
    pub fn links_from(&self, node: NodeNo) -> LinkRange
        requires { node.0 < node_count self.now }
        ensures links { HoldsLinks self.now node.0 result.first result.end }
        ensures graph { IsGraph self.now }
    {
        let place = node.0 as usize;
        LinkRange {
            first: self.starts[place],
            end: self.starts[place + 1],
        }
    }

    /// The links that end at the node, each once, ascending.
    pub fn links_to(&self, node: NodeNo) -> &[LinkNo]
        requires { node.0 < node_count self.now }
        ensures links { EndAt self.now node.0 result.now }
        ensures graph { IsGraph self.now }
    {
        self.incoming[node.0 as usize].as_slice()
    }

    /// Whether the node is overloaded, so that no walk passes through it (ISO 10589, 7.2.8.1).
    pub fn overloaded(&self, node: NodeNo) -> bool
        ensures { result ≡ is_overloaded self.now node.0 }
    {
        let place = node.0 as usize;
        place < self.overloaded.len() && self.overloaded[place]
    }

    /// Whether the node is the end of a walk itself, or isn't overloaded.
    pub fn carries(&self, end: NodeNo, node: NodeNo) -> bool
        ensures { result ≡ carries self.now end.0 node.0 }
    {
        node.0 == end.0 || !self.overloaded(node)
    }

    /// The empty set of links.
    pub fn nothing(&self, alloc: Global) -> Result<LinkSet, AllocError>
        ensures { IfOk result (λ set. set ≡ []) }
    {
        Ok(LinkSet::empty(alloc))
    }
}
