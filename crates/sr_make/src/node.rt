//! The link-state PDU of a node of a made net.
ghost use Rattle.std.specs.Prelude.{All, ◌≡◌, ◌<◌, ◌++◌, ◌^◌, IfOk, OnOk, filter, map};
ghost use Rattle.sr_make.specs.Nodes.{across, made_capability, made_lsp, made_prefix, made_reach, made_risk, made_sid_flags, touches};
ghost use Rattle.sr_make.specs.Sizes.{AreMadePairs, IsMadePair};

use crate::pairs::MadePair;
use sr_lsp::{Capability, Lsp, LspId, Part, Parts, Prefix, Reach, Risk};
use sr_model::{Range, SystemId};
use sr_seq::{Few, Seq};
use sr_subtlv::{AdjSid, LinkIds, PrefixSid, Sid, SrCap};
use sr_wire::registry::{ADDRESS_BITS, ADJ_SID_FORM};
use std::alloc::{AllocError, Global};

/// The address that comes before that of node 1.
const ADDRESSES: u32 = 0x0a00_0000;

/// The SRGB of every node.
const SRGB: Range = Range {
    first: 16_000,
    size: 8_000,
};

/// The adjacency label that comes before that of the first pair.
const ADJ_LABELS: u32 = 24_000;

/// The lifetime of every PDU, in seconds (ISO 10589, 7.3.21).
const LIFETIME: u16 = 1_200;

/// The flags of every PDU: a level 2 router (ISO 10589, 9.9).
const LEVEL_2: u8 = 0x03;

/// The flag I of SR-Capabilities: MPLS over IPv4 (RFC 8667, 3.1).
const MPLS_IPV4: u8 = 0x80;

/// The flag N of a Prefix-SID (RFC 8667, 2.1.1).
const NODE: u8 = 0x40;

/// Its flag P.
const KEEP: u8 = 0x20;

/// Its flag E.
const EXPLICIT: u8 = 0x10;

/// The system id of a node.
fn system_of(node: u32) -> SystemId
    ensures { result ≡ node }
{
    match SystemId::new(u64::from(node)) {
        Some(system) => system,
        None => unreachable!(),
    }
}

/// The SRGB of a node, as it announces it.
fn capability_of(alloc: Global, node: u32) -> Result<Part, AllocError>
    requires { node < 2 ^ 16 }
    ensures { IfOk result (λ part. part ≡ made_capability node) }
{
    let mut ranges = Seq::empty(alloc);
    ranges.push(SRGB)?;
    Ok(Part::Capability(Capability {
        router: ADDRESSES + node,
        flags: 0,
        srgb: Some(SrCap {
            flags: MPLS_IPV4,
            ranges,
        }),
        msd: Seq::empty(alloc),
    }))
}

/// The flags of the Prefix-SID of a node.
fn flags_of(node: u32) -> u8
    ensures { result ≡ made_sid_flags node }
{
    let keep = if node % 3 == 0 { KEEP } else { 0 };
    let explicit = if node % 6 == 0 { EXPLICIT } else { 0 };
    NODE + keep + explicit
}

/// The prefix of a node, as it announces it.
fn prefix_of(alloc: Global, node: u32) -> Result<Part, AllocError>
    requires { node < 2 ^ 16 }
    ensures { IfOk result (λ part. part ≡ made_prefix node) }
{
    let mut sids = Few::empty(alloc);
    sids.push(PrefixSid {
        flags: flags_of(node),
        algorithm: 0,
        sid: Sid::Index(node),
    })?;
    Ok(Part::Prefix(Prefix {
        metric: 0,
        down: false,
        length: ADDRESS_BITS,
        prefix: ADDRESSES + node,
        sids,
    }))
}

impl MadePair {
    /// Whether the pair joins the node to another.
    fn touches(&self, node: u32) -> bool
        ensures { result ≡ touches node self.now }
    {
        self.span.first == node || self.span.second == node
    }

    /// The node to which the pair joins this one.
    fn across(&self, node: u32) -> u32
        ensures { result ≡ across node self.now }
    {
        if self.span.first == node {
            self.span.second
        } else {
            self.span.first
        }
    }

    /// The pair's link from the node, as the node announces it.
    fn reach(&self, alloc: Global, node: u32) -> Result<Part, AllocError>
        requires { self.now.number < 2 ^ 16 }
        ensures { IfOk result (λ part. part ≡ made_reach node self.now) }
    {
        let mut adj = Few::empty(alloc);
        adj.push(AdjSid {
            flags: ADJ_SID_FORM,
            weight: 0,
            sid: Sid::Label(ADJ_LABELS + self.number),
        })?;
        Ok(Part::Reach(Reach {
            neighbour: system_of(self.across(node)),
            pseudonode: 0,
            metric: self.metric,
            ids: Some(LinkIds {
                local: self.number,
                remote: self.number,
            }),
            local: None,
            remote: None,
            adj,
        }))
    }

    /// The group of the pair's link from the node, as the node announces it.
    fn risk(&self, alloc: Global, node: u32) -> Result<Part, AllocError>
        ensures { IfOk result (λ part. part ≡ made_risk node self.now) }
    {
        let mut groups = Few::empty(alloc);
        groups.push(self.group)?;
        Ok(Part::Risk(Risk {
            neighbour: system_of(self.across(node)),
            pseudonode: 0,
            numbered: false,
            local: self.number,
            remote: self.number,
            groups,
        }))
    }
}

/// The pairs that join a node to another, in order.
fn pairs_at(alloc: Global, pairs: &[MadePair], node: u32) -> Result<Vec<MadePair>, AllocError>
    ensures { IfOk result (λ own. own.items ≡ filter (touches node) pairs.now) }
{
    let mut own = Vec::new(alloc);
    for pair in pairs {
        if pair.touches(node) {
            own.push(*pair)?;
        }
    }
    Ok(own)
}

/// Appends the links of a node, by its own pairs.
fn push_reaches(
    alloc: Global,
    own: &[MadePair],
    node: u32,
    parts: &mut Vec<Part>,
) -> Result<(), AllocError>
    requires { All IsMadePair own.now }
    ensures { OnOk result (parts.new.items ≡ parts.old.items ++ map (made_reach node) own.now) }
{
    for pair in own {
        parts.push(pair.reach(alloc, node)?)?;
    }
    Ok(())
}

/// Appends the groups of the links of a node, by its own pairs.
fn push_risks(
    alloc: Global,
    own: &[MadePair],
    node: u32,
    parts: &mut Vec<Part>,
) -> Result<(), AllocError>
    ensures { OnOk result (parts.new.items ≡ parts.old.items ++ map (made_risk node) own.now) }
{
    for pair in own {
        parts.push(pair.risk(alloc, node)?)?;
    }
    Ok(())
}

/// The PDU of a node of the net of these pairs.
pub(crate) fn lsp_of(alloc: Global, pairs: &[MadePair], node: u32) -> Result<Lsp, AllocError>
    requires pairs { AreMadePairs pairs.now }
    requires node { node < 2 ^ 16 }
    ensures { IfOk result (λ lsp. lsp ≡ made_lsp pairs.now node) }
{
    let mut parts = Vec::new(alloc);
    parts.push(capability_of(alloc, node)?)?;
    parts.push(prefix_of(alloc, node)?)?;
    let own = pairs_at(alloc, pairs, node)?;
    push_reaches(alloc, &own, node, &mut parts)?;
    push_risks(alloc, &own, node, &mut parts)?;
    Ok(Lsp {
        lifetime: LIFETIME,
        id: LspId {
            system: system_of(node),
            pseudonode: 0,
            fragment: 0,
        },
        sequence: 1,
        checksum: 0,
        flags: LEVEL_2,
        parts: Parts::new(alloc, parts)?,
    })
}
