//! What a line asks of a version.
ghost use Rattle.std.specs.Prelude.{[], ◌≡◌, ◌<◌, true, is_some, IfOk, IfSome, MatchOption};
ghost use Rattle.sr_model.specs.Graph.{node_count};
ghost use Rattle.sr_model.specs.Label.{labels_at};
ghost use Rattle.sr_model.specs.Walk.{Distance, NoWalk};
ghost use Rattle.sr_model.specs.Table.{IsLookup};
ghost use Rattle.sr_spf.specs.Hops.{AreNextHops};
ghost use Rattle.sr_fib.specs.Entries.{found_of};
ghost use Rattle.sr_forward.specs.declared.trace.Walk.{Walk as Walked};
ghost use Rattle.sr_print.specs.Links.{AreLinks};
ghost use Rattle.sr_print.specs.Forwarding.{IsEntryWithin};
ghost use Rattle.sr_run.specs.Questions.{IsForwarded};

use sr_fib::FibEntry;
use sr_forward::{Walk, walk};
use sr_model::{LinkNo, NodeNo};
use sr_repair::{Version, node_label};
use std::alloc::{AllocError, Global};

/// The distance from one node to another. None exactly where there is no walk.
pub(crate) fn distance(version: &Version, from: NodeNo, to: NodeNo) -> Option<u64>
    requires from { from.0 < node_count version.now.net.graph }
    requires to { to.0 < node_count version.now.net.graph }
    ensures { Distance version.now.net.graph [] from.0 to.0 result }
{
    version.trees().dist(from, to)
}

/// The next hops from one node to another, ascending.
pub(crate) fn next_hops(version: &Version, from: NodeNo, to: NodeNo) -> &[LinkNo]
    requires from { from.0 < node_count version.now.net.graph }
    requires to { to.0 < node_count version.now.net.graph }
    ensures hops { AreNextHops version.now.net.graph from.0 to.0 result.now }
    ensures links { AreLinks version.now.net.graph result.now }
{
    version.trees().next_hops(from, to)
}

/// What the label does at the node.
pub(crate) fn look_up(version: &Version, node: NodeNo, label: u32) -> Option<FibEntry<'_>>
    requires { node.0 < node_count version.now.net.graph }
    ensures lookup { IsLookup version.now.net node.0 label (found_of result) }
    ensures within { IfSome (found_of result) (IsEntryWithin version.now.net.graph) }
{
    let _net = version.net();
    version.fib().look(node, label)
}

/// The walk of a packet from one node under the label of another, no link being closed. None exactly where there is no
/// walk.
pub(crate) fn forwarded(
    alloc: Global,
    version: &Version,
    from: NodeNo,
    to: NodeNo,
    choice: u32,
) -> Result<Option<Walk>, AllocError>
    requires from { from.0 < node_count version.now.net.graph }
    requires to { to.0 < node_count version.now.net.graph }
    requires index { is_some (labels_at version.now.net to.0).index ≡ true }
    ensures forwarded { IfOk result (λ found. MatchOption found
        (NoWalk version.now.net.graph [] from.0 to.0)
        (λ walk. IsForwarded version.now.net from.0 to.0 choice walk.links.items)) }
    ensures links { IfOk result (λ found. IfSome found (λ (walk : Walked).
        AreLinks version.now.net.graph walk.links.items)) }
{
    match distance(version, from, to) {
        None => Ok(None),
        Some(_cost) => {
            let net = version.net();
            let label = node_label(net, from, to);
            let nothing = net.graph().nothing(alloc)?;
            let stack = vec![in alloc; label]?;
            let walk = walk(alloc, net, &version.fib(), &nothing, from, stack, choice)?;
            Ok(Some(walk))
        }
    }
}
