//! The net of the facts, or the first broken rule.
ghost use Rattle.std.specs.Prelude.{◌≡◌, IfOk, IfErr};
ghost use Rattle.sr_lsdb.specs.Facts.{AreInRange};
ghost use Rattle.sr_domain.specs.Announced.{two_way_of};
ghost use Rattle.sr_domain.specs.Rules.{IsDomainFault};
ghost use Rattle.sr_domain.specs.Steps.{AreParts, AreReady};
ghost use Rattle.sr_domain.specs.Net.{IsNetOf};

use crate::clash::check_labels;
use crate::draft::{label_list, risk_table, sort_links};
use crate::fault::DomainFault;
use crate::gathered::{Gathered, gather_facts};
use crate::labels::node_labels;
use crate::links::FoundLink;
use crate::topology::graph_of;
use crate::two_way::keys_of;
use sr_graph::Graph;
use sr_labels::{Net, NodeLabels};
use sr_lsdb::{Announcement, Facts};
use std::alloc::{AllocError, Global};

/// The net of this graph and these labels.
fn assemble(
    alloc: Global,
    facts: &Facts,
    graph: Graph,
    labels: Vec<NodeLabels>,
    links: &[FoundLink],
    two_way: &[Announcement],
) -> Result<Net, AllocError>
    requires parts { AreParts facts.now graph labels.items links.now }
    requires two_way { two_way.now ≡ two_way_of facts.now }
    ensures { IfOk result (IsNetOf facts.now) }
{
    let adj = label_list(alloc, links)?;
    let announced = keys_of(alloc, two_way)?;
    Net::new(alloc, graph, labels, adj, announced, facts.depth)
}

/// The net of what is gathered, or the first broken rule on nodes and links.
fn net_with(
    alloc: Global,
    facts: &Facts,
    gathered: Gathered,
    labels: Vec<NodeLabels>,
) -> Result<Net, DomainFault>
    requires { AreReady facts.now gathered labels.items }
    ensures net { IfOk result (IsNetOf facts.now) }
    ensures fault { IfErr result (IsDomainFault facts.now) }
{
    let Gathered {
        announced,
        two_way,
        nodes,
        mut links,
    } = gathered;
    sort_links(&mut links);
    let table = risk_table(alloc, facts, &announced, &links)?;
    let graph = graph_of(alloc, facts, nodes, &links, &table)?;
    let net = assemble(alloc, facts, graph, labels, &links, &two_way)?;
    Ok(net)
}

/// The net of the facts, or the first rule of the profile that they break, with the least that breaks it, or
/// `DomainFault::Memory` where it runs out of memory.
pub fn net_of(alloc: Global, facts: &Facts) -> Result<Net, DomainFault>
    requires { AreInRange facts.now }
    ensures net { IfOk result (IsNetOf facts.now) }
    ensures fault { IfErr result (IsDomainFault facts.now) }
{
    let gathered = gather_facts(alloc, facts)?;
    let labels = node_labels(alloc, facts, &gathered.nodes)?;
    check_labels(alloc, facts, &gathered.nodes, &labels, &gathered.links)?;
    net_with(alloc, facts, gathered, labels)
}
