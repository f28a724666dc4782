//! What is announced of each link of a net.
ghost use Rattle.std.specs.Prelude.{◌≡◌, length, IfOk, MatchOption};
ghost use Rattle.sr_model.specs.declared.link.LinkNo.{LinkNo as Number};
ghost use Rattle.sr_model.specs.Graph.{IsNamed, link_count};
ghost use Rattle.sr_lsp.specs.Parts.{part_of};
ghost use Rattle.sr_domain.specs.Net.{IsNetOf};
ghost use Rattle.sr_account.specs.Filling.{AreCountedParts, AreFirstFlags, AreLabelFlags, GivesNoSource, GivesSource, IsFilledTo, IsPut, IsSaidOf, NoSidGives};
ghost use Rattle.sr_account.specs.Laws.{IsInOrder};
ghost use Rattle.sr_account.specs.Sources.{AreSources};

use crate::laws::are_in_order;
use sr_domain::{is_present, link_by};
use sr_graph::Graph;
use sr_labels::Net;
use sr_lsdb::{Facts, adj_sid_label, announced_by, least_label};
use sr_lsp::{LspId, PartRef, Parts, Reach};
use sr_model::{LinkNo, SystemId};
use sr_subtlv::AdjSid;
use std::alloc::{AllocError, Global};

/// What is announced of a link: the metric, which a `cost` line may have replaced, and the flags of the SID that gives the
/// adjacency label (RFC 8667, 2.2.1), where it has one.
#[derive(Clone, Copy, Debug, PartialEq, Eq)]
pub struct LinkSource {
    pub metric: u32,
    pub flags: Option<u8>,
}

/// The flags of the first SID that gives the label.
fn first_flags(backup: bool, label: u32, sids: &[AdjSid]) -> Option<u8>
    ensures { MatchOption result (NoSidGives backup label sids.now) (AreFirstFlags backup label sids.now) }
{
    for sid in sids {
        if adj_sid_label(backup, *sid) == Some(label) {
            return Some(sid.flags);
        }
    }
    None
}

/// The flags of the SID that gives the adjacency label.
fn label_flags(sids: &[AdjSid]) -> Option<u8>
    ensures { AreLabelFlags sids.now result }
{
    let backup = least_label(false, sids).is_none();
    match least_label(backup, sids) {
        Some(label) => first_flags(backup, label, sids),
        None => None,
    }
}

/// What an entry announces of its link.
fn source_of(reach: &Reach) -> LinkSource
    ensures { IsSaidOf reach.now result }
{
    LinkSource {
        metric: reach.metric,
        flags: label_flags(reach.adj.as_slice()),
    }
}

/// The link of the graph that the part gives.
fn link_given(facts: &Facts, graph: &Graph, node: SystemId, part: PartRef<'_>) -> Option<LinkNo>
    ensures { MatchOption result (GivesNoSource facts.now graph.now node (part_of part.entry))
        (λ (link : Number). GivesSource facts.now graph.now node (part_of part.entry) link.0) }
{
    match announced_by(node, part) {
        Some(announcement) => match link_by(facts, &announcement) {
            Some(_) => graph.find(&announcement.key),
            None => None,
        },
        None => None,
    }
}

/// Puts what the part announces into the slot of the link that it gives.
fn put(facts: &Facts, graph: &Graph, node: SystemId, part: PartRef<'_>, sources: &mut [LinkSource])
    requires named { IsNamed graph.now }
    requires long { length sources.old ≡ link_count graph.now }
    ensures { IsPut facts.now graph.now node (part_of part.entry) sources.old sources.new }
{
    match link_given(facts, graph, node, part) {
        Some(link) => {
            let slot = link.0 as usize;
            match part {
                PartRef::Reach(reach) => sources[slot] = source_of(reach),
                _ => {}
            }
        }
        None => {}
    }
}

/// Fills the slots of the links that the parts of an LSP give.
fn fill_from(facts: &Facts, net: &Net, id: &LspId, parts: &Parts, sources: &mut [LinkSource])
    requires net { IsNetOf facts.now net.now }
    requires order { IsInOrder facts.now }
    requires parts { AreCountedParts facts.now id.now parts.now }
    requires long { length sources.old ≡ link_count net.now.graph }
    ensures { IsFilledTo facts.now net.now id.now (length parts.now) sources.old sources.new }
{
    let graph = net.graph();
    for at in 0..parts.count() {
        put(facts, graph, id.system, parts.at(at), sources);
    }
}

/// Fills each slot.
fn fill(facts: &Facts, net: &Net, sources: &mut [LinkSource])
    requires net { IsNetOf facts.now net.now }
    requires order { IsInOrder facts.now }
    requires long { length sources.old ≡ link_count net.now.graph }
    ensures { AreSources facts.now net.now sources.new }
{
    let database = facts.database.as_map();
    for (id, stored) in database {
        if id.pseudonode == 0 && is_present(facts, id.system) {
            match &stored.live {
                Some(shared) => fill_from(facts, net, id, &shared.lsp().parts, sources),
                None => {}
            }
        }
    }
}

/// What is announced of each link of the net, in order of links. The net is that of the facts. Fails only out of memory.
pub fn sources_of(alloc: Global, facts: &Facts, net: &Net) -> Result<Vec<LinkSource>, AllocError>
    requires { IsNetOf facts.now net.now }
    ensures { IfOk result (λ v. AreSources facts.now net.now v.items) }
{
    are_in_order(facts);
    let slot = LinkSource {
        metric: 0,
        flags: None,
    };
    let mut sources = vec![in alloc; slot; net.graph().link_count() as usize]?;
    fill(facts, net, &mut sources);
    Ok(sources)
}
