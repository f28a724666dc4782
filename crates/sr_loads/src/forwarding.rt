//! Packets, forwarded, with the links counted that they cross.
ghost use Rattle.std.specs.Prelude.{◌≡◌, ◌%◌, ◌<◌, length, Some, slice_get};
ghost use Rattle.sr_model.specs.Graph.{node_count, link_count};
ghost use Rattle.sr_spf.specs.Trees.{AreTrees, tree_count, hops_at};
ghost use Rattle.sr_loads.specs.Packets.{packets_between};
ghost use Rattle.sr_loads.specs.Tally.{AreNear, AddsPacket, AddsPackets};

use crate::counts::count;
use crate::packet::{Packet, Pair};
use sr_labels::Net;
use sr_model::{LinkNo, NodeNo};
use sr_spf::Trees;

/// A choice number modulo a count. A division takes longer than the rest of a hop, and it is seldom needed.
fn modulo(choice: u32, count: usize) -> usize
    requires { 0 < count }
    ensures { result ≡ choice % count }
{
    let number = choice as usize;
    if count == 1 {
        0
    } else if number < count {
        number
    } else {
        number % count
    }
}

/// The link that a packet crosses at a node on its way: of the next hops towards its end the one of number `choice` modulo
/// their count, counted from 0.
fn chosen_hop(trees: &Trees, at: NodeNo, packet: Packet) -> LinkNo
    requires at { at.0 < tree_count trees.now }
    requires to { packet.to.0 < tree_count trees.now }
    requires some { 0 < length (hops_at trees.now at.0 packet.to.0) }
    ensures { slice_get (hops_at trees.now at.0 packet.to.0)
        (packet.choice % length (hops_at trees.now at.0 packet.to.0)) ≡ Some result }
{
    let hops = trees.next_hops(at, packet.to);
    hops[modulo(packet.choice, hops.len())]
}

/// Forwards a packet from next hop to next hop until it has arrived, and counts each link that it crosses. These are the
/// links that it crosses step by step under labels: on the way the label of its end is on top at each node, and where it
/// arrives nothing is crossed any more. So neither stack nor label table is needed.
pub(crate) fn forward(net: &Net, trees: &Trees, packet: Packet, counts: &mut Vec<u64>)
    requires trees { AreTrees net.now.graph trees.now }
    requires packet { AreNear net.now packet.from.0 packet.to.0 }
    requires counts { length counts.old.items ≡ link_count net.now.graph }
    ensures { AddsPacket net.now packet counts.old.items counts.new.items }
{
    let graph = net.graph();
    let mut node = packet.from;
    for turn in 0..graph.node_count() {
        if node.0 == packet.to.0 {
            return;
        }
        let link = chosen_hop(trees, node, packet);
        count(counts, link);
        node = graph.edge(link).to;
    }
    unreachable!()
}

/// Forwards the packets of a pair, one for each choice number below `choices`.
pub(crate) fn forward_pair(
    net: &Net,
    trees: &Trees,
    pair: Pair,
    choices: u32,
    counts: &mut Vec<u64>,
)
    requires trees { AreTrees net.now.graph trees.now }
    requires pair { AreNear net.now pair.from.0 pair.to.0 }
    requires counts { length counts.old.items ≡ link_count net.now.graph }
    ensures { AddsPackets net.now (packets_between choices pair) counts.old.items counts.new.items }
{
    for choice in 0..choices {
        let packet = Packet {
            from: pair.from,
            to: pair.to,
            choice,
        };
        forward(net, trees, packet, counts);
    }
}
