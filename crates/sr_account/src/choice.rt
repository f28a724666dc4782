//! What a node chose among the parts of its own LSPs.
ghost use Rattle.std.specs.Prelude.{◌≡◌, None, IfSome};
ghost use Rattle.sr_wire.specs.declared.registry.TheConstants.{ADDRESS_BITS};
ghost use Rattle.sr_lsp.specs.declared.table.Part.TheVariants as part;
ghost use Rattle.sr_lsp.specs.Parts.{part_of};
ghost use Rattle.sr_domain.specs.Announced.{first_id};
ghost use Rattle.sr_domain.specs.Nodes.{past_own};
ghost use Rattle.sr_account.specs.declared.choice.Memo.{Memo as Kept};
ghost use Rattle.sr_account.specs.Steps.{IsChoice, at_part, each_from, first_saying, least_offer, lesser_offer, index_offer, own_items, part_items, prefix_item, says};

use crate::aside::Reason;
use sr_domain::{first_imposition, node_sid_by};
use sr_lsdb::Facts;
use sr_lsp::{Capability, LspId, PartRef, Parts, Prefix};
use sr_model::SystemId;
use sr_subtlv::PrefixSid;
use sr_wire::registry::ADDRESS_BITS;

/// An index that a Prefix-SID can give its node, with the place of the SID: the fragment of the node's own LSP, the part of
/// that, and the SID of that.
#[derive(Clone, Copy, Debug, PartialEq, Eq)]
pub(crate) struct Offer {
    pub index: u32,
    pub fragment: u8,
    pub part: usize,
    pub sid: usize,
}

/// A part of a node's own LSPs: the fragment, and the part of that.
#[derive(Clone, Copy, Debug, PartialEq, Eq)]
pub(crate) struct OwnPart {
    pub fragment: u8,
    pub part: usize,
}

/// What a node chose of what its own LSPs announce: the first Prefix-SID of the least index, the first part that says label
/// ranges, and the first that says how many labels can be imposed.
#[derive(Clone, Copy, Debug, PartialEq, Eq)]
pub(crate) struct Choice {
    pub offer: Option<Offer>,
    pub ranges: Option<OwnPart>,
    pub imposition: Option<OwnPart>,
}

/// The node that was asked last, and what it chose.
#[derive(Clone, Copy, Debug, PartialEq, Eq)]
pub(crate) struct Memo {
    pub node: SystemId,
    pub choice: Choice,
}

/// What a router capability may say of its node.
#[derive(Clone, Copy, Debug, PartialEq, Eq)]
pub(crate) enum Saying {
    Ranges,
    Imposition,
}

/// Why nothing of an LSP is used; or what its node chose, where it is the node's own.
#[derive(Clone, Copy, Debug, PartialEq, Eq)]
pub(crate) enum Standing {
    SetAside(Reason),
    Own(Choice),
}

/// The first id of the node's own LSPs, and the first after them.
fn own_ids(node: SystemId) -> (LspId, LspId)
    ensures { result ≡ (first_id node, past_own node) }
{
    (
        LspId {
            system: node,
            pseudonode: 0,
            fragment: 0,
        },
        LspId {
            system: node,
            pseudonode: 1,
            fragment: 0,
        },
    )
}

/// The index that the Prefix-SID at this place can give its node.
fn index_offer(fragment: u8, part: usize, k: usize, sid: PrefixSid) -> Option<Offer>
    ensures { result ≡ index_offer fragment part k sid }
{
    match node_sid_by(sid) {
        Some(given) => Some(Offer {
            index: given.index,
            fragment,
            part,
            sid: k,
        }),
        None => None,
    }
}

/// The one of the lesser index, and of equal ones the first.
fn lesser_offer(first: Option<Offer>, second: Option<Offer>) -> Option<Offer>
    ensures { result ≡ lesser_offer first second }
{
    match first {
        None => second,
        Some(x) => match second {
            None => first,
            Some(y) => { if y.index < x.index { second } else { first } }
        },
    }
}

/// The least of what was found and of what the SIDs of a prefix of full length offer.
fn least_of_prefix(id: &LspId, at: usize, prefix: &Prefix, first: Option<Offer>) -> Option<Offer>
    requires { prefix.now.length ≡ ADDRESS_BITS }
    ensures { result ≡ least_offer first (each_from (prefix_item (at_part id.now at) prefix.now) 0 prefix.now.sids) }
{
    let mut found = first;
    for (k, sid) in prefix.sids.as_slice().iter().enumerate() {
        found = lesser_offer(found, index_offer(id.fragment, at, k, *sid));
    }
    found
}

/// The least of what was found and of what the part offers.
fn least_of_part(id: &LspId, at: usize, part: PartRef<'_>, first: Option<Offer>) -> Option<Offer>
    ensures { result ≡ least_offer first (part_items id.now at (part_of part.entry)) }
{
    match part {
        PartRef::Prefix(prefix) => {
            if prefix.length == ADDRESS_BITS {
                least_of_prefix(id, at, prefix, first)
            } else {
                first
            }
        }
        _ => first,
    }
}

/// The least of what was found and of what the parts of an LSP offer.
fn least_of_parts(id: &LspId, parts: &Parts, first: Option<Offer>) -> Option<Offer>
    ensures { result ≡ least_offer first (each_from (part_items id.now) 0 parts.now) }
{
    let mut found = first;
    for at in 0..parts.count() {
        found = least_of_part(id, at, parts.at(at), found);
    }
    found
}

/// The first least index that the node's own LSPs can give it.
fn least_own(facts: &Facts, node: SystemId) -> Option<Offer>
    ensures { result ≡ least_offer None (own_items facts.now node) }
{
    let (first, past) = own_ids(node);
    let mut found = None;
    let database = facts.database.as_map();
    for (id, stored) in database.range(first..past) {
        match &stored.live {
            Some(shared) => found = least_of_parts(id, &shared.lsp().parts, found),
            None => {}
        }
    }
    found
}

/// Whether the router capability says label ranges, or how many labels can be imposed.
pub(crate) fn tells(saying: Saying, capability: &Capability) -> bool
    ensures { result ≡ says saying (part.Capability capability.now) }
{
    match saying {
        Saying::Ranges => capability.srgb.is_some(),
        Saying::Imposition => first_imposition(capability.msd.as_slice()).is_some(),
    }
}

/// The same of any part.
fn says(saying: Saying, part: PartRef<'_>) -> bool
    ensures { result ≡ says saying (part_of part.entry) }
{
    match part {
        PartRef::Capability(capability) => tells(saying, capability),
        _ => false,
    }
}

/// The place of the first part of an LSP that says so.
fn first_of_parts(saying: Saying, id: &LspId, parts: &Parts) -> Option<OwnPart>
    ensures { result ≡ first_saying saying (each_from (part_items id.now) 0 parts.now) }
{
    for at in 0..parts.count() {
        if says(saying, parts.at(at)) {
            return Some(OwnPart {
                fragment: id.fragment,
                part: at,
            });
        }
    }
    None
}

/// The place of the first part of the node's own LSPs that says so.
fn first_own(facts: &Facts, saying: Saying, node: SystemId) -> Option<OwnPart>
    ensures { result ≡ first_saying saying (own_items facts.now node) }
{
    let (first, past) = own_ids(node);
    let database = facts.database.as_map();
    for (id, stored) in database.range(first..past) {
        match &stored.live {
            Some(shared) => match first_of_parts(saying, id, &shared.lsp().parts) {
                Some(place) => return Some(place),
                None => {}
            },
            None => {}
        }
    }
    None
}

/// What the node chose, by one walk over its own LSPs for each of the three.
fn choose(facts: &Facts, node: SystemId) -> Choice
    ensures { IsChoice facts.now node result }
{
    Choice {
        offer: least_own(facts, node),
        ranges: first_own(facts, Saying::Ranges, node),
        imposition: first_own(facts, Saying::Imposition, node),
    }
}

/// What the node chose. It is known already where the node is the one that was asked last.
pub(crate) fn choice_for(facts: &Facts, node: SystemId, last: &Option<Memo>) -> Choice
    requires { IfSome last.now (λ (m : Kept). IsChoice facts.now m.node m.choice) }
    ensures { IsChoice facts.now node result }
{
    match last {
        Some(memo) => {
            if memo.node == node {
                memo.choice
            } else {
                choose(facts, node)
            }
        }
        None => choose(facts, node),
    }
}
