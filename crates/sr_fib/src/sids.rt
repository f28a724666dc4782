//! The nodes of a net by index and the links of each node by adjacency label, by which its label tables are told.
ghost use Rattle.std.specs.Prelude.{◌<◌, length, IfOk, MatchOption};
ghost use Rattle.sr_fib.specs.Sorted.{HasNode, NoNode, HasLinkUnder, NoLink};
ghost use Rattle.sr_fib.specs.Tables.{AreSids, links_by_label_at};

use crate::listed::{adjacencies, indices};
use crate::sorted::{IndexedNode, LabelledLink, link_of_label, node_of_index};
use sr_labels::Net;
use sr_model::{LinkNo, NodeNo};
use std::alloc::{AllocError, Global};
use std::marker::Model;

/// Links in order of label.
#[derive(Debug, Drop)]
struct LinksByLabel {
    list: Vec<LabelledLink>,
}

impl Model for LinksByLabel {
    ghost use Rattle.std.specs.Prelude.{List};
    ghost use Rattle.sr_fib.specs.declared.sorted.LabelledLink.{LabelledLink};
    ghost use Rattle.sr_fib.specs.Sorted.{AscendByLabel};

    ghost Value = { List LabelledLink };

    ghost view = { λ a. a.list.items };

    ghost invariant = { λ a. AscendByLabel a.list.items };
}

impl LinksByLabel {
    /// The link that has the label.
    fn link(&self, label: u32) -> Option<LinkNo>
        ensures { MatchOption result (NoLink self.now label) (HasLinkUnder self.now label) }
    {
        link_of_label(&self.list, label)
    }
}

/// The nodes of a net by index, and the links of each node by adjacency label.
#[derive(Debug, Drop)]
pub struct Sids {
    indices: Vec<IndexedNode>,
    links: Vec<LinksByLabel>,
}

impl Model for Sids {
    ghost use Rattle.sr_fib.specs.Tables.{SidLists};
    ghost use Rattle.sr_fib.specs.Sorted.{AscendByIndex};

    ghost Value = { SidLists };

    ghost view = { λ a. record { indices = a.indices.items; links = a.links.items } };

    ghost invariant = { λ a. AscendByIndex a.indices.items };
}

impl Sids {
    /// The nodes and links of the net.
    pub fn build(alloc: Global, net: &Net) -> Result<Sids, AllocError>
        ensures { IfOk result (λ s. AreSids net.now s) }
    {
        let indices = indices(alloc, net)?;
        let count = net.graph().node_count();
        let mut links = Vec::with_capacity(alloc, count as usize)?;
        for node in 0..count {
            let list = adjacencies(alloc, net, NodeNo(node as u16))?;
            links.push(LinksByLabel { list })?;
        }
        Ok(Sids { indices, links })
    }

    /// The node that has the index.
    pub(crate) fn node(&self, index: u32) -> Option<NodeNo>
        ensures { MatchOption result (NoNode self.now.indices index) (HasNode self.now.indices index) }
    {
        node_of_index(&self.indices, index)
    }

    /// The link of the node that has the label.
    pub(crate) fn link(&self, node: NodeNo, label: u32) -> Option<LinkNo>
        requires { node.0 < length self.now.links }
        ensures { MatchOption result
            (NoLink (links_by_label_at self.now.links node.0) label)
            (HasLinkUnder (links_by_label_at self.now.links node.0) label) }
    {
        self.links[node.0 as usize].link(label)
    }
}
