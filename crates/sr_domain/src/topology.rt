//! The graph of a domain.
ghost use Rattle.std.specs.Prelude.{◌≡◌, IfOk, IfErr};
ghost use Rattle.sr_domain.specs.Rules.{AreKept, IsDomainFault};
ghost use Rattle.sr_domain.specs.Named.{domain_fault as domain_fault_of};
ghost use Rattle.sr_domain.specs.Steps.{AreDrafted, IsGraphOf};

use crate::draft::draft_links;
use crate::fault::DomainFault;
use crate::groups::RiskTable;
use crate::links::FoundLink;
use crate::overload::{marked, overloaded_of};
use sr_graph::{Draft, Graph, GraphFault};
use sr_lsdb::Facts;
use sr_model::{DomainRule, SystemId};
use sr_seq::Seq;
use std::alloc::{AllocError, Global};

/// Why the graph is refused, as a rule of the profile.
fn domain_fault(fault: &GraphFault) -> DomainFault
    ensures { result ≡ domain_fault_of fault.now }
{
    match fault {
        GraphFault::ZeroMetric { from, to } => DomainFault::Rule(DomainRule::ZeroMetric {
            from: *from,
            to: *to,
        }),
        GraphFault::DuplicateLink { from, to } => DomainFault::Rule(DomainRule::DuplicateLink {
            from: *from,
            to: *to,
        }),
        GraphFault::TooManyNodes { count } => {
            DomainFault::Rule(DomainRule::TooManyNodes { count: *count })
        }
        GraphFault::TooManyLinks { count } => {
            DomainFault::Rule(DomainRule::TooManyLinks { count: *count })
        }
        GraphFault::Memory(_) => DomainFault::Memory(AllocError),
    }
}

/// The graph of these nodes and sorted links, with the overloaded nodes marked, or the first broken rule on them.
pub(crate) fn graph_of(
    alloc: Global,
    facts: &Facts,
    nodes: Vec<SystemId>,
    links: &[FoundLink],
    table: &RiskTable,
) -> Result<Graph, DomainFault>
    requires { AreDrafted facts.now nodes.items links.now table.now }
    ensures graph { IfOk result (IsGraphOf facts.now nodes.items links.now) }
    ensures kept { IfOk result (λ _. AreKept facts.now 9) }
    ensures fault { IfErr result (IsDomainFault facts.now) }
{
    let overloaded = overloaded_of(alloc, facts, &nodes)?;
    let drafts = draft_links(alloc, table, links)?;
    let draft = Draft {
        nodes: Seq::new(nodes),
        links: Seq::new(drafts),
    };
    match Graph::build(alloc, draft) {
        Ok(built) => {
            let graph = marked(alloc, built, &overloaded)?;
            Ok(graph)
        }
        Err(fault) => Err(domain_fault(&fault)),
    }
}
