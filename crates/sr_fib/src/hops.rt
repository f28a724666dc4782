//! The next hops towards a node, each with what becomes of the node's label.
ghost use Rattle.std.specs.Prelude.{◌≡◌, ◌<◌, length, map, Some, slice_get};
ghost use Rattle.sr_model.specs.Graph.{node_count};
ghost use Rattle.sr_model.specs.Table.{IsOut};
ghost use Rattle.sr_fib.specs.Outs.{IsIndexed, AreLinksInside, out_at, hops_over, hop_link};

use crate::sorted::IndexedNode;
use sr_labels::Net;
use sr_model::{LinkNo, NodeNo, Out};
use std::marker::Model;

/// What becomes of the label of node `end` when a link into node `to` is crossed (RFC 8660, 2.10 and 2.11; RFC 8667,
/// 2.1.1).
fn out(net: &Net, end: IndexedNode, to: NodeNo) -> Out
    requires end { IsIndexed net.now end }
    requires to { to.0 < node_count net.now.graph }
    ensures out { IsOut net.now end.node.0 to.0 result }
    ensures value { result ≡ out_at net.now end.node.0 to.0 }
{
    let labels = net.labels(end.node);
    if to.0 == end.node.0 {
        if !labels.keep() {
            return Out::Pop;
        }
        if labels.explicit() {
            return Out::Null;
        }
    }
    match net.labels(to).srgb().label(end.index) {
        Some(label) => Out::Swap(label),
        None => unreachable!(),
    }
}

/// Links towards a node, with what says what becomes of its label on each: that is told when it is asked, so that no table
/// has to hold it. Contracts see them as the list of both.
#[derive(Drop)]
pub struct Hops<'a> {
    net: &'a Net,
    end: IndexedNode,
    links: &'a [LinkNo],
}

impl<'a> Model for Hops<'a> {
    ghost use Rattle.std.specs.Prelude.{List};
    ghost use Rattle.sr_model.specs.declared.link.LinkNo.{LinkNo};
    ghost use Rattle.sr_model.specs.declared.entry.Out.{Out};
    ghost use Rattle.sr_fib.specs.Outs.{IsIndexed, AreLinksInside, hops_over};

    ghost Value = { List (LinkNo × Out) };

    ghost view = { λ h. hops_over h.net.now h.end.node.0 h.links.now };

    ghost invariant = { λ h. IsIndexed h.net.now h.end × AreLinksInside h.net.now h.links.now };
}

impl<'a> Hops<'a> {
    /// These links of the net, towards the node.
    pub(crate) fn new(net: &'a Net, end: IndexedNode, links: &'a [LinkNo]) -> Hops<'a>
        requires end { IsIndexed net.now end }
        requires links { AreLinksInside net.now links.now }
        ensures { result ≡ hops_over net.now end.node.0 links.now }
    {
        Hops { net, end, links }
    }

    /// How many there are.
    pub fn len(&self) -> usize
        ensures { result ≡ length self.now }
    {
        self.links.len()
    }

    /// The links, in their order.
    pub fn links(&self) -> &'a [LinkNo]
        ensures { result.now ≡ map hop_link self.now }
    {
        self.links
    }

    /// The link at the place, counted from 0, with what becomes of the label when it is crossed.
    pub fn get(&self, place: usize) -> (LinkNo, Out)
        requires { place < length self.now }
        ensures { slice_get self.now place ≡ Some result }
    {
        let links = self.links;
        let link = links[place];
        let to = self.net.graph().edge(link).to;
        (link, out(self.net, self.end, to))
    }
}
