//! The names of a net's nodes and links, kept as texts.
ghost use Rattle.std.specs.Prelude.{◌≡◌, ◌<◌, length, IfOk};
ghost use Rattle.sr_model.specs.Graph.{node_count, link_count};
ghost use Rattle.sr_print.specs.Links.{link_text};
ghost use Rattle.sr_print.specs.Names.{AreTexts, AreNames, node_text, text_at};

use crate::link::put_link_text;
use sr_labels::Net;
use sr_model::{LinkNo, NodeNo};
use std::alloc::{AllocError, Global};
use std::marker::Model;

/// A text that is made once. Contracts see it as its octets.
#[derive(Debug, Drop)]
struct Text {
    octets: Vec<u8>,
}

impl Model for Text {
    ghost use Rattle.std.specs.Prelude.{List, ℕ};

    ghost Value = { List ℕ };

    ghost view = { λ a. a.octets.items };
}

impl Text {
    /// The octets.
    fn octets(&self) -> &[u8]
        ensures { result.now ≡ self.now }
    {
        &self.octets
    }
}

/// The names of a net's nodes and links as text, each made once. Contracts see them as lists of texts, in order of
/// number.
#[derive(Debug, Drop)]
pub struct Names {
    nodes: Vec<Text>,
    links: Vec<Text>,
}

impl Model for Names {
    ghost use Rattle.sr_print.specs.Names.{Texts};

    ghost Value = { Texts };

    ghost view = { λ a. record { nodes = a.nodes.items; links = a.links.items } };
}

/// The system id of a node.
#[tactic(auto, unfolding(crate::specs::Names::node_text))]
fn node_name(alloc: Global, net: &Net, node: NodeNo) -> Result<Text, AllocError>
    requires { node.0 < node_count net.now.graph }
    ensures { IfOk result (λ text. text ≡ node_text net.now node.0) }
{
    // A system id takes 14 octets.
    let mut octets = Vec::with_capacity(alloc, 14)?;
    net.graph().system(node).put(&mut octets)?;
    Ok(Text { octets })
}

/// The ends of a link, and its number among the announced keys between them.
fn link_name(alloc: Global, net: &Net, link: LinkNo) -> Result<Text, AllocError>
    requires { link.0 < link_count net.now.graph }
    ensures { IfOk result (λ text. text ≡ link_text net.now link.0) }
{
    // Two system ids, two signs and a digit or two.
    let mut octets = Vec::with_capacity(alloc, 32)?;
    put_link_text(net, link, &mut octets)?;
    Ok(Text { octets })
}

/// The names of all nodes.
fn node_names(alloc: Global, net: &Net) -> Result<Vec<Text>, AllocError>
    ensures { IfOk result (λ texts. AreTexts (node_text net.now) (node_count net.now.graph) texts.items) }
{
    let count = net.graph().node_count();
    let mut names = Vec::with_capacity(alloc, count as usize)?;
    for node in 0..count {
        names.push(node_name(alloc, net, NodeNo(node as u16))?)?;
    }
    Ok(names)
}

/// The names of all links.
fn link_names(alloc: Global, net: &Net) -> Result<Vec<Text>, AllocError>
    ensures { IfOk result (λ texts. AreTexts (link_text net.now) (link_count net.now.graph) texts.items) }
{
    let count = net.graph().link_count();
    let mut names = Vec::with_capacity(alloc, count as usize)?;
    for link in 0..count {
        names.push(link_name(alloc, net, LinkNo(link as u16))?)?;
    }
    Ok(names)
}

impl Names {
    /// The names of the net's nodes and links.
    pub fn of(alloc: Global, net: &Net) -> Result<Names, AllocError>
        ensures { IfOk result (AreNames net.now) }
    {
        Ok(Names {
            nodes: node_names(alloc, net)?,
            links: link_names(alloc, net)?,
        })
    }

    /// The name of the node.
    pub(crate) fn node(&self, node: NodeNo) -> &[u8]
        requires { node.0 < length self.now.nodes }
        ensures { result.now ≡ text_at self.now.nodes node.0 }
    {
        self.nodes[node.0 as usize].octets()
    }

    /// The name of the link.
    pub(crate) fn link(&self, link: LinkNo) -> &[u8]
        requires { link.0 < length self.now.links }
        ensures { result.now ≡ text_at self.now.links link.0 }
    {
        self.links[link.0 as usize].octets()
    }
}
