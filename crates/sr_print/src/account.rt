//! The lines of the nodes and links of a net.
ghost use Rattle.std.specs.Prelude.{◌≡◌, ◌<◌, ◌++◌, None, Some, codes, length, MatchOption, OnOk, OnErr};
ghost use Rattle.std.specs.List.{flat_map};
ghost use Rattle.sr_model.specs.declared.link.LinkNo.{LinkNo as Number};
ghost use Rattle.sr_model.specs.Graph.{link_count, node_count};
ghost use Rattle.sr_print.specs.Account.{announced_text, links_at, next_range, node_line, node_lines, nodes_text};
ghost use Rattle.sr_print.specs.Account.{optional, label_range_text, ranges_text, srgb_text};
ghost use Rattle.sr_print.specs.Account.{back_of, back_text, group_word, groups_text, ident_text};
ghost use Rattle.sr_print.specs.Account.{link_line, link_lines, links_text, source_text};
ghost use Rattle.sr_print.specs.Printed.{BeginsWith};

use crate::address::put_address_word;
use crate::flags::{put_node_flags, put_sid_flags};
use crate::line::{end, put_numbered};
use crate::link::put_link;
use crate::number::{put_node, put_number, put_value};
use sr_account::LinkSource;
use sr_graph::Graph;
use sr_labels::{Net, NodeLabels};
use sr_model::{Ident, LinkNo, NodeNo, Range};
use std::alloc::AllocError;

/// Appends a text with a number behind it, or with `none`.
/// After an error a part of it may stand there; what stood before stays.
fn put_optional(text: &[u8], number: Option<u32>, out: &mut Vec<u8>) -> Result<(), AllocError>
    ensures line { OnOk result (out.new.items ≡ out.old.items ++ optional text.now number) }
    ensures err { OnErr result (BeginsWith out.old.items out.new.items) }
{
    out.extend_from_slice(text)?;
    match number {
        None => out.extend_from_slice(b"none"),
        Some(number) => put_number(u64::from(number), out),
    }
}

/// Appends the first and the last label of a range. After an error a part of it may stand there;
/// what stood before stays.
#[tactic(auto, unfolding(crate::specs::Account::label_range_text))]
fn put_range(range: &Range, out: &mut Vec<u8>) -> Result<(), AllocError>
    ensures line { OnOk result (out.new.items ≡ out.old.items ++ label_range_text range.now) }
    ensures err { OnErr result (BeginsWith out.old.items out.new.items) }
{
    let Range { first, size } = *range;
    put_number(u64::from(first), out)?;
    let end = u64::from(first) + u64::from(size);
    put_numbered(b"-", end.saturating_sub(1), out)
}

/// Appends a range behind others. After an error a part of it may stand there; what stood before stays.
fn put_next_range(range: &Range, out: &mut Vec<u8>) -> Result<(), AllocError>
    ensures line { OnOk result (out.new.items ≡ out.old.items ++ next_range range.now) }
    ensures err { OnErr result (BeginsWith out.old.items out.new.items) }
{
    out.push(b',')?;
    put_range(range, out)
}

/// Appends ranges behind others. After an error a part of them may stand there; what stood before stays.
fn put_next_ranges(ranges: &[Range], out: &mut Vec<u8>) -> Result<(), AllocError>
    ensures line { OnOk result (out.new.items ≡ out.old.items ++ flat_map next_range ranges.now) }
    ensures err { OnErr result (BeginsWith out.old.items out.new.items) }
{
    for range in ranges {
        put_next_range(range, out)?;
    }
    Ok(())
}

/// Appends ranges, with commas between them. After an error a part of them may stand there;
/// what stood before stays.
fn put_ranges(ranges: &[Range], out: &mut Vec<u8>) -> Result<(), AllocError>
    ensures line { OnOk result (out.new.items ≡ out.old.items ++ ranges_text ranges.now) }
    ensures err { OnErr result (BeginsWith out.old.items out.new.items) }
{
    match ranges.split_first() {
        None => Ok(()),
        Some((first, more)) => {
            put_range(first, out)?;
            put_next_ranges(more, out)
        }
    }
}

/// Appends ` srgb ` and the ranges of a node. After an error a part of them may stand there; what stood before stays.
fn put_srgb(labels: &NodeLabels, out: &mut Vec<u8>) -> Result<(), AllocError>
    ensures line { OnOk result (out.new.items ≡ out.old.items ++ srgb_text labels.now.srgb) }
    ensures err { OnErr result (BeginsWith out.old.items out.new.items) }
{
    out.extend_from_slice(b" srgb ")?;
    put_ranges(labels.srgb().ranges(), out)
}

/// Appends ` msd M`, or ` msd none` where it isn't announced.
/// After an error a part of it may stand there; what stood before stays.
fn put_msd(imposes: Option<u8>, out: &mut Vec<u8>) -> Result<(), AllocError>
    ensures line { OnOk result (out.new.items ≡ out.old.items ++ optional (codes " msd ") imposes) }
    ensures err { OnErr result (BeginsWith out.old.items out.new.items) }
{
    match imposes {
        None => out.extend_from_slice(b" msd none"),
        Some(labels) => put_numbered(b" msd ", u64::from(labels), out),
    }
}

/// Appends ` index I flags F srgb R msd M`. After an error a part of it may stand there; what stood before stays.
#[tactic(auto, unfolding(crate::specs::Account::announced_text))]
fn put_announced(labels: &NodeLabels, overloaded: bool, out: &mut Vec<u8>) -> Result<(), AllocError>
    ensures line { OnOk result (out.new.items ≡ out.old.items ++ announced_text labels.now overloaded) }
    ensures err { OnErr result (BeginsWith out.old.items out.new.items) }
{
    put_optional(b" index ", labels.index(), out)?;
    put_node_flags(labels, overloaded, out)?;
    put_srgb(labels, out)?;
    put_msd(labels.imposes(), out)
}

/// How many links begin at the node.
fn links_at(graph: &Graph, node: NodeNo) -> u16
    requires { node.0 < node_count graph.now }
    ensures { result ≡ links_at graph.now node.0 }
{
    let links = graph.links_from(node);
    links.end - links.first
}

/// Appends `node SYSTEM index I flags F srgb R msd M links K`.
/// After an error a part of the line may stand there; what stood before stays.
#[tactic(auto, unfolding(crate::specs::Account::node_line))]
fn put_node_line(net: &Net, node: NodeNo, out: &mut Vec<u8>) -> Result<(), AllocError>
    requires { node.0 < node_count net.now.graph }
    ensures line { OnOk result (out.new.items ≡ out.old.items ++ node_line net.now node.0) }
    ensures err { OnErr result (BeginsWith out.old.items out.new.items) }
{
    let graph = net.graph();
    out.extend_from_slice(b"node")?;
    put_node(graph.system(node), out)?;
    put_announced(net.labels(node), graph.overloaded(node), out)?;
    put_numbered(b" links ", u64::from(links_at(graph, node)), out)?;
    end(out)
}

/// Appends a line for each node, in order. After an error a part of the lines may stand there;
/// what stood before stays.
fn put_each_node(net: &Net, out: &mut Vec<u8>) -> Result<(), AllocError>
    ensures line { OnOk result (out.new.items ≡ out.old.items ++ node_lines net.now (node_count net.now.graph)) }
    ensures err { OnErr result (BeginsWith out.old.items out.new.items) }
{
    for node in 0..net.graph().node_count() {
        put_node_line(net, NodeNo(node as u16), out)?;
    }
    Ok(())
}

/// Appends `node SYSTEM index I flags F srgb R msd M links K` for each node in order, and `nodes N`: the index of the
/// node's segment; the letters of its flags P and E, and O where it is overloaded; the first and the last label of each
/// of its ranges; how many labels it can impose; and how many links begin there. What isn't announced is `none`.
/// After an error a part of the lines may stand there; what stood before stays.
pub fn put_nodes(net: &Net, out: &mut Vec<u8>) -> Result<(), AllocError>
    ensures line { OnOk result (out.new.items ≡ out.old.items ++ nodes_text net.now) }
    ensures err { OnErr result (BeginsWith out.old.items out.new.items) }
{
    put_each_node(net, out)?;
    put_numbered(b"nodes ", u64::from(net.graph().node_count()), out)?;
    end(out)
}

/// The opposite of a link, where it is in use.
fn back_of(graph: &Graph, link: LinkNo) -> Option<LinkNo>
    requires { link.0 < link_count graph.now }
    ensures { MatchOption result
        (back_of graph.now link.0 ≡ None)
        (λ (back : Number). (back_of graph.now link.0 ≡ Some back.0) × (back.0 < link_count graph.now)) }
{
    graph.find(&graph.link(link).key.mirrored())
}

/// Appends ` back LINK` with the opposite link, or ` back none` where that isn't in use.
/// After an error a part of it may stand there; what stood before stays.
fn put_back(net: &Net, link: LinkNo, out: &mut Vec<u8>) -> Result<(), AllocError>
    requires { link.0 < link_count net.now.graph }
    ensures line { OnOk result
        (out.new.items ≡ out.old.items ++ back_text net.now (back_of net.now.graph link.0)) }
    ensures err { OnErr result (BeginsWith out.old.items out.new.items) }
{
    match back_of(net.graph(), link) {
        None => out.extend_from_slice(b" back none"),
        Some(back) => {
            out.extend_from_slice(b" back")?;
            put_link(net, back, out)
        }
    }
}

/// Appends ` metric M announced M label L flags F`. After an error a part of it may stand there;
/// what stood before stays.
#[tactic(auto, unfolding(crate::specs::Account::source_text))]
fn put_source(
    net: &Net,
    link: LinkNo,
    source: &LinkSource,
    out: &mut Vec<u8>,
) -> Result<(), AllocError>
    requires { link.0 < link_count net.now.graph }
    ensures line { OnOk result (out.new.items ≡ out.old.items ++ source_text net.now link.0 source.now) }
    ensures err { OnErr result (BeginsWith out.old.items out.new.items) }
{
    put_numbered(b" metric ", u64::from(net.graph().link(link).metric), out)?;
    put_numbered(b" announced ", u64::from(source.metric), out)?;
    put_optional(b" label ", net.adj(link), out)?;
    put_sid_flags(source.flags, out)
}

/// Appends ` ident none`, ` ident addr A B` or ` ident ids X Y`: what tells the link from others between its nodes.
/// After an error a part of it may stand there; what stood before stays.
#[tactic(auto, unfolding(crate::specs::Account::ident_text))]
pub(crate) fn put_ident(ident: Ident, out: &mut Vec<u8>) -> Result<(), AllocError>
    ensures line { OnOk result (out.new.items ≡ out.old.items ++ ident_text ident) }
    ensures err { OnErr result (BeginsWith out.old.items out.new.items) }
{
    match ident {
        Ident::None => out.extend_from_slice(b" ident none"),
        Ident::Addr(local, remote) => {
            out.extend_from_slice(b" ident addr")?;
            put_address_word(local, out)?;
            put_address_word(remote, out)
        }
        Ident::Link(local, remote) => {
            put_numbered(b" ident ids ", u64::from(local), out)?;
            put_value(u64::from(remote), out)
        }
    }
}

/// Appends shared-risk groups, each as one more word. After an error a part of them may stand there;
/// what stood before stays.
fn put_each_group(groups: &[u32], out: &mut Vec<u8>) -> Result<(), AllocError>
    ensures line { OnOk result (out.new.items ≡ out.old.items ++ flat_map group_word groups.now) }
    ensures err { OnErr result (BeginsWith out.old.items out.new.items) }
{
    for group in groups {
        put_value(u64::from(*group), out)?;
    }
    Ok(())
}

/// Appends ` groups G G ..`, or ` groups none` where there are none.
/// After an error a part of it may stand there; what stood before stays.
pub(crate) fn put_groups(groups: &[u32], out: &mut Vec<u8>) -> Result<(), AllocError>
    ensures line { OnOk result (out.new.items ≡ out.old.items ++ groups_text groups.now) }
    ensures err { OnErr result (BeginsWith out.old.items out.new.items) }
{
    if groups.is_empty() {
        return out.extend_from_slice(b" groups none");
    }
    out.extend_from_slice(b" groups")?;
    put_each_group(groups, out)
}

/// Appends `link LINK back LINK metric M announced M label L flags F ident .. groups ..`.
/// After an error a part of the line may stand there; what stood before stays.
#[tactic(auto, unfolding(crate::specs::Account::link_line))]
fn put_link_line(
    net: &Net,
    link: LinkNo,
    source: &LinkSource,
    out: &mut Vec<u8>,
) -> Result<(), AllocError>
    requires { link.0 < link_count net.now.graph }
    ensures line { OnOk result (out.new.items ≡ out.old.items ++ link_line net.now link.0 source.now) }
    ensures err { OnErr result (BeginsWith out.old.items out.new.items) }
{
    out.extend_from_slice(b"link")?;
    put_link(net, link, out)?;
    put_back(net, link, out)?;
    put_source(net, link, source, out)?;
    put_ident(net.graph().link(link).key.ident, out)?;
    put_groups(net.graph().groups(link), out)?;
    end(out)
}

/// Appends a line for each link, in order. After an error a part of the lines may stand there;
/// what stood before stays.
fn put_each_link(net: &Net, sources: &[LinkSource], out: &mut Vec<u8>) -> Result<(), AllocError>
    requires { length sources.now ≡ link_count net.now.graph }
    ensures line { OnOk result
        (out.new.items ≡ out.old.items ++ link_lines net.now sources.now (link_count net.now.graph)) }
    ensures err { OnErr result (BeginsWith out.old.items out.new.items) }
{
    for link in 0..net.graph().link_count() {
        put_link_line(net, LinkNo(link as u16), &sources[link as usize], out)?;
    }
    Ok(())
}

/// Appends `link LINK back LINK metric M announced M label L flags F ident .. groups ..` for each link in order, and
/// `links L`: the opposite link; the metric, and the one that is announced; the adjacency label, and the letters of the
/// flags of its SID; what tells the link from others between its nodes, none, addresses (`addr`) or identifiers (`ids`);
/// and its shared-risk groups. `sources` has what is announced of each link. What there isn't is `none`.
/// After an error a part of the lines may stand there; what stood before stays.
pub fn put_links(net: &Net, sources: &[LinkSource], out: &mut Vec<u8>) -> Result<(), AllocError>
    requires { length sources.now ≡ link_count net.now.graph }
    ensures line { OnOk result (out.new.items ≡ out.old.items ++ links_text net.now sources.now) }
    ensures err { OnErr result (BeginsWith out.old.items out.new.items) }
{
    put_each_link(net, sources, out)?;
    put_numbered(b"links ", u64::from(net.graph().link_count()), out)?;
    end(out)
}
