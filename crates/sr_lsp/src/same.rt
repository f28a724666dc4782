//! Whether two link-state PDUs say the same.
ghost use Rattle.std.specs.Prelude.{◌≡◌, ◌↔◌, IsTrue};
ghost use Rattle.sr_lsp.specs.Parts.{part_of};
ghost use Rattle.sr_lsp.specs.Said.{said_by};

use crate::capability::Capability;
use crate::lsp::Lsp;
use crate::name::Name;
use crate::parts::{PartRef, Parts};
use crate::prefix::Prefix;
use crate::reach::Reach;
use crate::risk::Risk;
use sr_model::Range;
use sr_subtlv::{AdjSid, LinkIds, Msd, PrefixSid, SrCap};

/// Whether the link identifiers are the same, or both aren't said.
fn are_same_ids(one: &Option<LinkIds>, other: &Option<LinkIds>) -> bool
    ensures { IsTrue result ↔ (one.now ≡ other.now) }
{
    one == other
}

/// Whether the SIDs of an adjacency are the same.
fn are_same_adj_sids(one: &[AdjSid], other: &[AdjSid]) -> bool
    ensures { IsTrue result ↔ (one.now ≡ other.now) }
{
    one == other
}

/// Whether the entries of adjacencies are the same.
fn are_same_reach(one: &Reach, other: &Reach) -> bool
    ensures { IsTrue result ↔ (one.now ≡ other.now) }
{
    if one.neighbour != other.neighbour || one.pseudonode != other.pseudonode {
        return false;
    }
    if one.metric != other.metric || one.local != other.local || one.remote != other.remote {
        return false;
    }
    are_same_ids(&one.ids, &other.ids)
        && are_same_adj_sids(one.adj.as_slice(), other.adj.as_slice())
}

/// Whether the SIDs of a prefix are the same.
fn are_same_prefix_sids(one: &[PrefixSid], other: &[PrefixSid]) -> bool
    ensures { IsTrue result ↔ (one.now ≡ other.now) }
{
    one == other
}

/// Whether the entries of prefixes are the same.
fn are_same_prefix(one: &Prefix, other: &Prefix) -> bool
    ensures { IsTrue result ↔ (one.now ≡ other.now) }
{
    if one.metric != other.metric || one.down != other.down {
        return false;
    }
    if one.length != other.length || one.prefix != other.prefix {
        return false;
    }
    are_same_prefix_sids(one.sids.as_slice(), other.sids.as_slice())
}

/// Whether the names are the same.
fn are_same_name(one: &Name, other: &Name) -> bool
    ensures { IsTrue result ↔ (one.now ≡ other.now) }
{
    one.octets.as_slice() == other.octets.as_slice()
}

/// Whether the risk groups of a link are the same.
fn are_same_risk(one: &Risk, other: &Risk) -> bool
    ensures { IsTrue result ↔ (one.now ≡ other.now) }
{
    if one.neighbour != other.neighbour || one.pseudonode != other.pseudonode {
        return false;
    }
    if one.numbered != other.numbered || one.local != other.local || one.remote != other.remote {
        return false;
    }
    one.groups.as_slice() == other.groups.as_slice()
}

/// Whether the ranges of labels are the same.
fn are_same_ranges(one: &[Range], other: &[Range]) -> bool
    ensures { IsTrue result ↔ (one.now ≡ other.now) }
{
    one == other
}

/// Whether the flags and the ranges of an SRGB are the same, or both aren't said.
fn are_same_srgb(one: &Option<SrCap>, other: &Option<SrCap>) -> bool
    ensures { IsTrue result ↔ (one.now ≡ other.now) }
{
    match (one, other) {
        (Some(first), Some(second)) => {
            first.flags == second.flags
                && are_same_ranges(first.ranges.as_slice(), second.ranges.as_slice())
        }
        (None, None) => true,
        _ => false,
    }
}

/// Whether the maximum SID depths are the same.
fn are_same_depths(one: &[Msd], other: &[Msd]) -> bool
    ensures { IsTrue result ↔ (one.now ≡ other.now) }
{
    one == other
}

/// Whether the capabilities are the same.
fn are_same_capability(one: &Capability, other: &Capability) -> bool
    ensures { IsTrue result ↔ (one.now ≡ other.now) }
{
    if one.router != other.router || one.flags != other.flags {
        return false;
    }
    are_same_srgb(&one.srgb, &other.srgb)
        && are_same_depths(one.msd.as_slice(), other.msd.as_slice())
}

/// Whether the parts are the same, of one kind to begin with.
fn are_same_part(one: PartRef<'_>, other: PartRef<'_>) -> bool
    ensures { IsTrue result ↔ (part_of one.entry ≡ part_of other.entry) }
{
    match (one, other) {
        (PartRef::Reach(first), PartRef::Reach(second)) => are_same_reach(first, second),
        (PartRef::Prefix(first), PartRef::Prefix(second)) => are_same_prefix(first, second),
        (PartRef::Name(first), PartRef::Name(second)) => are_same_name(first, second),
        (PartRef::Risk(first), PartRef::Risk(second)) => are_same_risk(first, second),
        (PartRef::Capability(first), PartRef::Capability(second)) => {
            are_same_capability(first, second)
        }
        _ => false,
    }
}

impl Parts {
    /// Whether the parts are the same, in the same order.
    fn is_same(&self, other: &Parts) -> bool
        ensures { IsTrue result ↔ (self.now ≡ other.now) }
    {
        if self.count() != other.count() {
            return false;
        }
        for place in 0..self.count() {
            if !are_same_part(self.at(place), other.at(place)) {
                return false;
            }
        }
        true
    }
}

impl Lsp {
    /// Whether the PDUs say the same: the same flags, among them the overload bit, and the same parts in the same
    /// order. How they are flooded, with which number, lifetime and checksum, doesn't belong to what they say.
    pub fn says_the_same(&self, other: &Lsp) -> bool
        ensures { IsTrue result ↔ (said_by self.now ≡ said_by other.now) }
    {
        self.flags == other.flags && self.parts.is_same(&other.parts)
    }
}
