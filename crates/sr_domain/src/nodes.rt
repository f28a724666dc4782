//! The nodes of a domain, their label ranges, their indices and how many labels they can impose.
ghost use Rattle.std.specs.Prelude.{◌≡◌, slice_get, IfOk};
ghost use Rattle.std.specs.Option.{option_map};
ghost use Rattle.std.specs.List.{filter_map};
ghost use Rattle.std.specs.List.Sorted.{IsStrictlyIncreasing};
ghost use Rattle.sr_lsp.specs.Parts.{part_of};
ghost use Rattle.sr_domain.specs.Nodes.{past_own, nodes_of, first_ranges, srgb_of as srgb_in, node_sid_by, lesser_sid, least_sid, sid_of_part, least_of_parts, node_sid_of, imposition_by, imposition_in, imposition_of, has_overload_bit as has_overload_bit_in};
ghost use Rattle.sr_domain.specs.Announced.{first_id};

use crate::announced::first_id;
use sr_lsdb::Facts;
use sr_lsp::{LspId, PartRef, Parts};
use sr_model::{Range, SystemId};
use sr_subtlv::{Msd, PrefixSid, Sid};
use sr_wire::registry::{
    ADDRESS_BITS, LSP_OVERLOAD, MSD_IMPOSITION, PREFIX_SID_EXPLICIT_NULL, PREFIX_SID_NO_POP,
    PREFIX_SID_NODE, PREFIX_SID_READVERTISED,
};
use std::alloc::{AllocError, Global};

/// The index of a node with its flags P (`keep`) and E (`explicit`).
#[derive(Clone, Copy, Debug, PartialEq, Eq)]
pub struct NodeSid {
    pub index: u32,
    pub keep: bool,
    pub explicit: bool,
}

/// The nodes whose LSP with pseudonode 0 and fragment 0 is live, in the order of the database.
fn gather_nodes(alloc: Global, facts: &Facts) -> Result<Vec<SystemId>, AllocError>
    ensures { IfOk result (λ v. v.items ≡ nodes_of facts.now) }
{
    let mut out = Vec::new(alloc);
    let database = facts.database.as_map();
    for (id, stored) in database {
        if id.pseudonode == 0 && id.fragment == 0 && stored.live.is_some() {
            out.push(id.system)?;
        }
    }
    Ok(out)
}

/// The present nodes, ascending.
pub(crate) fn node_list(alloc: Global, facts: &Facts) -> Result<Vec<SystemId>, AllocError>
    ensures nodes { IfOk result (λ v. v.items ≡ nodes_of facts.now) }
    ensures ascending { IfOk result (λ v. IsStrictlyIncreasing v.items) }
{
    // Nothing is done with the count. What `len` promises says that the database is in order, which `as_map` doesn't.
    let _count = facts.database.as_map().len();
    let out = gather_nodes(alloc, facts)?;
    Ok(out)
}

/// A copy of the label ranges of the first SR-Capabilities among the parts.
fn first_ranges(alloc: Global, parts: &Parts) -> Result<Option<Vec<Range>>, AllocError>
    ensures { IfOk result (λ o. option_map (λ v. v.items) o ≡ first_ranges parts.now) }
{
    for at in 0..parts.count() {
        match parts.at(at) {
            PartRef::Capability(capability) => match &capability.srgb {
                Some(cap) => return Ok(Some(Vec::from_slice(alloc, cap.ranges.as_slice())?)),
                None => {}
            },
            _ => {}
        }
    }
    Ok(None)
}

/// The first id of the node's own LSPs, and the first after them.
fn own_ids(node: SystemId) -> (LspId, LspId)
    ensures { result ≡ (first_id node, past_own node) }
{
    (
        first_id(node),
        LspId {
            system: node,
            pseudonode: 1,
            fragment: 0,
        },
    )
}

/// A copy of the label ranges of the node.
pub fn srgb_of(
    alloc: Global,
    facts: &Facts,
    node: SystemId,
) -> Result<Option<Vec<Range>>, AllocError>
    ensures { IfOk result (λ o. option_map (λ v. v.items) o ≡ srgb_in facts.now node) }
{
    let (first, past) = own_ids(node);
    let database = facts.database.as_map();
    for (_id, stored) in database.range(first..past) {
        match &stored.live {
            Some(shared) => match first_ranges(alloc, &shared.lsp().parts)? {
                Some(ranges) => return Ok(Some(ranges)),
                None => {}
            },
            None => {}
        }
    }
    Ok(None)
}

/// The index that the Prefix-SID gives its node.
pub fn node_sid_by(sid: PrefixSid) -> Option<NodeSid>
    ensures { result ≡ node_sid_by sid }
{
    if sid.algorithm != 0 {
        return None;
    }
    match sid.sid {
        Sid::Label(_) => None,
        Sid::Index(index) => {
            if sid.flags & (PREFIX_SID_READVERTISED | PREFIX_SID_NODE) == PREFIX_SID_NODE {
                Some(NodeSid {
                    index,
                    keep: sid.flags & PREFIX_SID_NO_POP != 0,
                    explicit: sid.flags & PREFIX_SID_EXPLICIT_NULL != 0,
                })
            } else {
                None
            }
        }
    }
}

/// The one of the lesser index, and of equal ones the first.
fn lesser_sid(first: Option<NodeSid>, second: Option<NodeSid>) -> Option<NodeSid>
    ensures { result ≡ lesser_sid first second }
{
    match first {
        None => second,
        Some(x) => match second {
            None => first,
            Some(y) => { if y.index < x.index { second } else { first } }
        },
    }
}

/// The least index of these Prefix-SIDs.
fn least_sid(sids: &[PrefixSid]) -> Option<NodeSid>
    ensures { result ≡ least_sid sids.now }
{
    let mut found = None;
    for sid in sids {
        found = lesser_sid(found, node_sid_by(*sid));
    }
    found
}

/// The index that the part gives its node.
fn sid_of_part(part: PartRef<'_>) -> Option<NodeSid>
    ensures { result ≡ sid_of_part (part_of part.entry) }
{
    match part {
        PartRef::Prefix(prefix) => {
            if prefix.length == ADDRESS_BITS {
                least_sid(prefix.sids.as_slice())
            } else {
                None
            }
        }
        _ => None,
    }
}

/// The least index of these parts.
fn least_of_parts(parts: &Parts) -> Option<NodeSid>
    ensures { result ≡ least_of_parts parts.now }
{
    let mut found = None;
    for at in 0..parts.count() {
        found = lesser_sid(found, sid_of_part(parts.at(at)));
    }
    found
}

/// The index of the node.
pub fn node_sid(facts: &Facts, node: SystemId) -> Option<NodeSid>
    ensures { result ≡ node_sid_of facts.now node }
{
    let (first, past) = own_ids(node);
    let mut found = None;
    let database = facts.database.as_map();
    for (_id, stored) in database.range(first..past) {
        match &stored.live {
            Some(shared) => { found = lesser_sid(found, least_of_parts(&shared.lsp().parts)) }
            None => {}
        }
    }
    found
}

/// The first of these depths that says how many labels the node can impose.
pub fn first_imposition(msds: &[Msd]) -> Option<u8>
    ensures { result ≡ slice_get (filter_map imposition_by msds.now) 0 }
{
    for msd in msds {
        if msd.kind == MSD_IMPOSITION {
            return Some(msd.value);
        }
    }
    None
}

/// The first of these parts' depths that says how many labels the node can impose.
fn imposition_in(parts: &Parts) -> Option<u8>
    ensures { result ≡ imposition_in parts.now }
{
    for at in 0..parts.count() {
        match parts.at(at) {
            PartRef::Capability(capability) => match first_imposition(capability.msd.as_slice()) {
                Some(depth) => return Some(depth),
                None => {}
            },
            _ => {}
        }
    }
    None
}

/// How many labels the node can impose, where it announces that.
pub(crate) fn imposition(facts: &Facts, node: SystemId) -> Option<u8>
    ensures { result ≡ imposition_of facts.now node }
{
    let (first, past) = own_ids(node);
    let database = facts.database.as_map();
    for (_id, stored) in database.range(first..past) {
        match &stored.live {
            Some(shared) => match imposition_in(&shared.lsp().parts) {
                Some(depth) => return Some(depth),
                None => {}
            },
            None => {}
        }
    }
    None
}

/// Whether the node's LSP with pseudonode 0 and fragment 0 has the overload bit.
pub(crate) fn has_overload_bit(facts: &Facts, node: SystemId) -> bool
    ensures { result ≡ has_overload_bit_in facts.now node }
{
    match facts.database.get(&first_id(node)) {
        Some(stored) => match &stored.live {
            Some(shared) => shared.lsp().flags & LSP_OVERLOAD != 0,
            None => false,
        },
        None => false,
    }
}
