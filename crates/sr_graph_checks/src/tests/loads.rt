//! Loads of small nets. What is wanted is counted by hand: each packet of the ring crosses one
//! link, or two.

use super::fixtures::{Line, RING, graph_of, net_with, trees_of};
use sr_labels::Net;
use sr_loads::{MOST_CHOICES, MOST_FORWARDERS, loads};
use std::alloc::{AllocError, Global};
use std::sync::Wait;
use std::test::Fail;
use std::thread::Threads;

/// Nodes 1 and 2, with a link from 2 to 1 and none back.
const ONE_WAY: [Line; 1] = [(2, 1, 1)];

/// A net whose nodes have indices from this number on, a number of choices, and the loads: how many
/// packets there are, and how often each link is crossed.
struct Told {
    name: &'static str,
    nodes: u64,
    links: &'static [Line],
    first: u32,
    choices: u32,
    packets: u64,
    counts: &'static [u64],
}

/// In the ring a packet to a neighbour crosses one link, and one to the node across two, by the
/// first of its two ways where the choice number is 0. Links in order: 1 to 2 and 4, 2 to 1 and 3,
/// 3 to 2 and 4, 4 to 1 and 3. Over the one way a packet goes to node 1, if that has an index.
const TOLD: [Told; 4] = [
    Told {
        name: "a ring",
        nodes: 4,
        links: &RING,
        first: 0,
        choices: 1,
        packets: 12,
        counts: &[3, 2, 3, 2, 2, 1, 2, 1],
    },
    Told {
        name: "a ring with two choices",
        nodes: 4,
        links: &RING,
        first: 0,
        choices: 2,
        packets: 24,
        counts: &[4, 4, 4, 4, 4, 4, 4, 4],
    },
    Told {
        name: "a way to a node with an index",
        nodes: 2,
        links: &ONE_WAY,
        first: 0,
        choices: 1,
        packets: 1,
        counts: &[1],
    },
    Told {
        name: "a way to a node without",
        nodes: 2,
        links: &ONE_WAY,
        first: 1,
        choices: 1,
        packets: 0,
        counts: &[0],
    },
];

/// Whether the net has these loads, by each number of forwarders.
fn are_told(
    rt: &(impl Threads + Wait + Sync),
    alloc: Global,
    net: &Net,
    told: &Told,
) -> Result<bool, AllocError> {
    if told.choices == 0 || told.choices > MOST_CHOICES {
        return Ok(false);
    }
    let trees = trees_of(rt, alloc, net.graph())?;
    for forwarders in 1..=MOST_FORWARDERS {
        let found = loads(rt, alloc, net, &trees, forwarders, told.choices)?;
        if found.packets() != told.packets || found.counts() != told.counts {
            return Ok(false);
        }
    }
    Ok(true)
}

#[test]
fn the_loads_of_small_nets(rt: HostRuntime) -> Result<(), Fail> {
    let alloc = rt.alloc();
    for told in &TOLD {
        assert!(rt; told.nodes < 256);
        let net = net_with(
            alloc,
            graph_of(alloc, told.nodes, told.links)?,
            told.first,
            8,
        )?;
        assert!(rt; are_told(&rt, alloc, &net, told)?, "{}", told.name);
    }
    Ok(())
}
