//! Nodes by number: a node's number is the place of its system id.
ghost use Rattle.std.specs.Prelude.{◌≡◌, ◌≢◌, ℕ, ◌<◌, ◌≤◌, length, slice_index, slice_index_or, All, Contains, map, IfSome, IfNone, IfOk};
ghost use Rattle.std.specs.List.{AllZip};
ghost use Rattle.std.specs.List.Sorted.{IsStrictlyIncreasing};
ghost use Rattle.sr_model.specs.declared.link.NodeNo.{NodeNo as Number};
ghost use Rattle.sr_model.specs.declared.link.LinkNo.{LinkNo as Found};
ghost use Rattle.sr_model.specs.Graph.{no_link};
ghost use Rattle.sr_graph.specs.declared.draft.DraftLink.{DraftLink as Drafted};
ghost use Rattle.sr_graph.specs.Draft.{HasEnds};
ghost use Rattle.sr_graph.specs.Numbers.{IsNodeNumber, IsNumbered, AscendByKey};
ghost use Rattle.sr_model.specs.declared.link.TheConstants.{MOST_LINKS, MOST_NODES};

use crate::draft::DraftLink;
use sr_model::{Link, LinkKey, LinkNo, NodeNo, SystemId};
use sr_seq::Seq;
use std::alloc::{AllocError, Global};

/// The number of the node of this system id, if there is one.
pub(crate) fn node_number(systems: &[SystemId], system: SystemId) -> Option<NodeNo>
    requires ascending { IsStrictlyIncreasing systems.now }
    requires few { length systems.now ≤ MOST_NODES }
    ensures found { IfSome result (λ (node : Number). IsNodeNumber systems.now node.0 system) }
    ensures none { IfNone result ((v : ℕ) → v < length systems.now → slice_index systems.now v ≢ system) }
{
    match systems.binary_search(&system) {
        Ok(at) => Some(NodeNo(at as u16)),
        Err(_) => None,
    }
}

/// The number of a node that there is.
fn number(systems: &[SystemId], system: SystemId) -> NodeNo
    requires ascending { IsStrictlyIncreasing systems.now }
    requires few { length systems.now ≤ MOST_NODES }
    requires there { Contains systems.now system }
    ensures { IsNodeNumber systems.now result.0 system }
{
    node_number(systems, system).unwrap()
}

/// The number of a node that there is. It is sought only where it isn't `near`.
fn number_near(systems: &[SystemId], near: NodeNo, system: SystemId) -> NodeNo
    requires ascending { IsStrictlyIncreasing systems.now }
    requires few { length systems.now ≤ MOST_NODES }
    requires there { Contains systems.now system }
    ensures { IsNodeNumber systems.now result.0 system }
{
    let at = near.0 as usize;
    if at < systems.len() && systems[at] == system {
        near
    } else {
        number(systems, system)
    }
}

/// The one place where a link of this key can stand.
fn place_of(links: &[Link], key: &LinkKey) -> usize
    requires { AscendByKey links.now }
    ensures { (l : ℕ) → l < length links.now → (slice_index_or links.now l no_link).key ≡ key.now → l ≡ result }
{
    links.partition_point(|link| link.key < *key)
}

/// The number of the link of this key, if there is one.
pub(crate) fn find(links: &[Link], key: &LinkKey) -> Option<LinkNo>
    requires few { length links.now ≤ MOST_LINKS }
    requires ascending { AscendByKey links.now }
    ensures found { IfSome result (λ (link : Found).
        (link.0 < length links.now) × ((slice_index_or links.now link.0 no_link).key ≡ key.now)) }
    ensures none { IfNone result ((l : ℕ) → l < length links.now → (slice_index_or links.now l no_link).key ≢ key.now) }
{
    let at = place_of(links, key);
    if at < links.len() && links[at].key == *key {
        Some(LinkNo(at as u16))
    } else {
        None
    }
}

/// Links with their ends by number, and the groups of each.
#[derive(Drop)]
pub(crate) struct NumberedLinks {
    pub(crate) links: Vec<Link>,
    pub(crate) groups: Vec<Seq<u32>>,
}

/// The links with their ends by number.
pub(crate) fn number_all(
    alloc: Global,
    systems: &[SystemId],
    drafted: Vec<DraftLink>,
) -> Result<NumberedLinks, AllocError>
    requires ascending { IsStrictlyIncreasing systems.now }
    requires few { length systems.now ≤ MOST_NODES }
    requires ends { All (HasEnds systems.now) drafted.items }
    ensures links { IfOk result (λ numbered. AllZip (IsNumbered systems.now) drafted.items numbered.links.items) }
    ensures groups { IfOk result (λ numbered.
        numbered.groups.items ≡ map (λ (link : Drafted). link.groups) drafted.items) }
{
    let mut links = Vec::with_capacity(alloc, drafted.len())?;
    let mut groups = Vec::with_capacity(alloc, drafted.len())?;
    // In order of key, most links begin where the link before begins.
    let mut from = NodeNo(0);
    for link in drafted {
        let key = link.key;
        from = number_near(systems, from, key.from);
        let to = number(systems, key.to);
        links.push(Link {
            key,
            from,
            to,
            metric: link.metric,
        })?;
        groups.push(link.groups)?;
    }
    Ok(NumberedLinks { links, groups })
}
