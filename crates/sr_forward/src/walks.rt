//! The walk of a packet.
ghost use Rattle.std.specs.Prelude.{◌≡◌, [], ◌∷◌, ◌++◌, ◌+◌, ◌*◌, ◌<◌, All, reverse, IfOk, OnOk, vec_len};
ghost use Rattle.sr_model.specs.declared.link.LinkNo.{LinkNo as Number};
ghost use Rattle.sr_model.specs.Graph.{node_count, link_count};
ghost use Rattle.sr_model.specs.Forward.{crossed, IsWalked};
ghost use Rattle.sr_fib.specs.Tables.{IsFib};
ghost use Rattle.sr_forward.specs.Steps.{node_after};
ghost use Rattle.sr_fib.specs.Entries.{numbers};
ghost use Rattle.sr_forward.specs.Runs.{IsMove, PacketArrives, RepairArrives};

use crate::moves::step;
use crate::trace::Walk;
use sr_fib::Fib;
use sr_graph::LinkSet;
use sr_labels::Net;
use sr_model::{LinkNo, Move, NodeNo};
use std::alloc::{AllocError, Global};

/// Keeps a move of the packet: where it is then, and the link that it crossed.
fn advance(
    net: &Net,
    end: &mut NodeNo,
    links: &mut Vec<LinkNo>,
    moved: Move,
) -> Result<(), AllocError>
    requires end { end.old.0 < node_count net.now.graph }
    requires moved { IsMove net.now moved }
    ensures end { OnOk result (end.new.0 ≡ node_after net.now end.old.0 moved) }
    ensures within { OnOk result (end.new.0 < node_count net.now.graph) }
    ensures links { OnOk result
        (numbers links.new.items ≡ numbers links.old.items ++ crossed (moved ∷ [])) }
{
    match moved {
        Move::Popped => Ok(()),
        Move::Crossed(link) => {
            links.push(link)?;
            *end = net.graph().link(link).to;
            Ok(())
        }
    }
}

/// The walk of a packet from the node: it takes steps as `step` says, until its stack is empty or
/// no step is lawful, or until it took nodes times (labels + 2) steps (this project's rule).
///
/// Where no link is closed and the stack is the label of a node that is reached, the packet ends
/// there with an empty stack, and its links are a shortest walk. Where the failed links are closed
/// and the stack is that of a sound list at the end of its first link, the packet ends at the list's
/// destination with an empty stack, and with the first link its links are a shortest walk without
/// the failed links.
pub fn walk(
    alloc: Global,
    net: &Net,
    fib: &Fib<'_>,
    closed: &LinkSet,
    node: NodeNo,
    stack: Vec<u32>,
    choice: u32,
) -> Result<Walk, AllocError>
    requires fib { IsFib net.now fib.now }
    requires node { node.0 < node_count net.now.graph }
    ensures walked { IfOk result (λ w. IsWalked net.now closed.now choice node.0
        (reverse stack.items) (node_count net.now.graph * (vec_len stack + 2))
        (numbers w.links.items) w.end.0 (reverse w.rest.items)) }
    ensures arrives { IfOk result (λ w.
        PacketArrives net.now closed.now node.0
        (reverse stack.items) (numbers w.links.items) w.end.0 (reverse w.rest.items)
        × RepairArrives net.now closed.now node.0
        (reverse stack.items) (numbers w.links.items) w.end.0 (reverse w.rest.items)) }
    ensures within { IfOk result (λ w. (w.end.0 < node_count net.now.graph)
        × All (λ (l : Number). l.0 < link_count net.now.graph) w.links.items) }
{
    let turns = net.graph().node_count() as u128 * (stack.len() as u128 + 2);
    let mut links = Vec::new(alloc);
    let mut end = node;
    let mut rest = stack;
    for turn in 0..turns {
        match step(net, fib, closed, end, &mut rest, choice) {
            None => return Ok(Walk { links, end, rest }),
            Some(moved) => advance(net, &mut end, &mut links, moved)?,
        }
    }
    Ok(Walk { links, end, rest })
}
