//! What the router at the beginning of a link does with a packet under the link's adjacency label when the link fails.
ghost use Rattle.std.specs.Prelude.{◌≡◌, ◌<◌, true, length, is_some, IfOk};
ghost use Rattle.sr_model.specs.Graph.{link_count, head};
ghost use Rattle.sr_model.specs.Label.{labels_at};
ghost use Rattle.sr_model.specs.Case.{IsAffected};
ghost use Rattle.sr_model.specs.Repair.{IsCaseAnswer};
ghost use Rattle.sr_spf.specs.Trees.{AreTrees};
ghost use Rattle.sr_adjprot.specs.Active.{adj_case as adj_case_of, IsAdjAnswer, IsOwnHop};
ghost use Rattle.sr_adjprot.specs.Delivery.{AdjDelivers};
ghost use Rattle.sr_adjprot.specs.Backup.{IsReplaced};

use crate::answer::AdjAnswer;
use sr_labels::Net;
use sr_model::{Answer, Case, Kind, LinkNo, NodeNo};
use sr_repair::{Version, labels_of, node_label};
use sr_seq::Seq;
use sr_spf::Trees;
use std::alloc::{AllocError, Global};

/// The case in which the pair of the link fails.
fn adj_case(link: LinkNo) -> Case
    ensures { result ≡ adj_case_of link }
{
    Case {
        kind: Kind::Link,
        link,
    }
}

/// The steering to the end of a link that is no next hop towards it.
fn steered<'a>(net: &Net, trees: &Trees, link: LinkNo) -> AdjAnswer<'a>
    requires link { link.0 < link_count net.now.graph }
    requires trees { AreTrees net.now.graph trees.now }
    requires index { is_some (labels_at net.now (head net.now.graph link.0)).index ≡ true }
    requires aside { IsOwnHop net.now link → ⊥ }
    ensures { IsReplaced net.now link result }
{
    let edge = net.graph().edge(link);
    let label = node_label(net, edge.from, edge.to);
    match trees.dist(edge.from, edge.to) {
        None => unreachable!(),
        Some(cost) => AdjAnswer::Steer { label, cost },
    }
}

/// The repair of the link's failure towards its end, with its labels, or why there is none.
fn redirected<'a>(
    alloc: Global,
    net: &Net,
    link: LinkNo,
    answer: Answer<'a>,
) -> Result<AdjAnswer<'a>, AllocError>
    requires link { link.0 < link_count net.now.graph }
    requires index { is_some (labels_at net.now (head net.now.graph link.0)).index ≡ true }
    requires affected { IsAffected net.now (adj_case_of link) (head net.now.graph link.0) }
    requires answer { IsCaseAnswer net.now (adj_case_of link) (head net.now.graph link.0) answer }
    ensures { IfOk result (IsReplaced net.now link) }
{
    let end = net.graph().edge(link).to;
    let labels = labels_of(alloc, net, adj_case(link), end, &answer)?;
    match answer {
        Answer::Least(list) => Ok(AdjAnswer::Repair {
            list,
            labels: Seq::new(labels),
        }),
        Answer::NoPath => Ok(AdjAnswer::Uncovered(Answer::NoPath)),
        Answer::NoList => Ok(AdjAnswer::Uncovered(Answer::NoList)),
        Answer::TooDeep { needed } => Ok(AdjAnswer::Uncovered(Answer::TooDeep { needed })),
    }
}

/// What is done with the packet where the link's end has a node index.
fn led<'a>(alloc: Global, version: &'a Version, link: LinkNo) -> Result<AdjAnswer<'a>, AllocError>
    requires link { link.0 < link_count version.now.net.graph }
    requires index { is_some (labels_at version.now.net (head version.now.net.graph link.0)).index ≡ true }
    ensures { IfOk result (IsReplaced version.now.net link) }
{
    let net = version.net();
    let end = net.graph().edge(link).to;
    match version.repair(adj_case(link), end) {
        Some(answer) => redirected(alloc, net, link, answer),
        None => Ok(steered(net, version.trees(), link)),
    }
}

/// What the router at the beginning of the link does with a packet under an eligible label of the link when the link
/// fails. The packet arrives, whichever equal-cost links the nodes take.
pub(crate) fn replaced<'a>(
    alloc: Global,
    version: &'a Version,
    link: LinkNo,
) -> Result<AdjAnswer<'a>, AllocError>
    requires { link.0 < link_count version.now.net.graph }
    ensures answer { IfOk result (IsReplaced version.now.net link) }
    ensures delivers { IfOk result (AdjDelivers version.now.net link) }
{
    let net = version.net();
    let end = net.graph().edge(link).to;
    match net.labels(end).index() {
        None => Ok(AdjAnswer::NoIndex),
        Some(_) => led(alloc, version, link),
    }
}

/// What the router at the beginning of the link does with a packet under the link's adjacency label when the link fails:
/// nothing where the label isn't eligible or the link's end has no node index; else it steers or repairs the packet to
/// that end, or leaves it uncovered (this project's rule). The packet arrives, whichever equal-cost links the nodes take.
pub fn adj_repair<'a>(
    alloc: Global,
    version: &'a Version,
    eligible: &[bool],
    link: LinkNo,
) -> Result<AdjAnswer<'a>, AllocError>
    requires link { link.0 < link_count version.now.net.graph }
    requires long { length eligible.now ≡ link_count version.now.net.graph }
    ensures answer { IfOk result (IsAdjAnswer version.now.net eligible.now link) }
    ensures delivers { IfOk result (AdjDelivers version.now.net link) }
{
    if eligible[link.0 as usize] {
        replaced(alloc, version, link)
    } else {
        Ok(AdjAnswer::Unprotected)
    }
}
