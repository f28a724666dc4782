//! Extended IS reachability, TLV 22 (RFC 5305, 3): read, written, and what it holds.

ghost use Rattle.std.specs.Prelude.{◌≡◌, ℕ, ◌<◌, ◌≤◌, ◌+◌, ◌^◌, ◌++◌, ◌∷◌, [], List, length, drop, slice_index, IfErr, IfNone, IfSome, MatchResult, OnErr, OnOk};
ghost use Rattle.sr_wire.specs.Octets.{Continues};
ghost use Rattle.byteorder.specs.Endian.{big_bytes};
ghost use Rattle.sr_wire.specs.Fault.{IfMalformed};
ghost use Rattle.sr_lsp.specs.declared.table.Part.{Part};
ghost use Rattle.sr_lsp.specs.Reach.{Entry, FitsReach, SaysReach, entry_layout, reach_entry_of, entry_text, reach_kind, reach_subs};

use crate::octets::system_id_at;
use crate::table::Part;
use byteorder::{BigEndian, ByteOrder};
use sr_model::SystemId;
use sr_seq::Few;
use sr_subtlv::{AdjSid, LinkIds, NeighbourAddr, OwnAddr};
use sr_wire::octets::u24_at;
use sr_wire::registry::EXTENDED_REACH;
use sr_wire::{
    Entries, Next, ReadFault, SubTlvs, TlvKind, add_all, add_first, all_fit, all_length,
    all_widths, first_length, first_widths, read_entries, read_subs, write_all_subs, write_first,
};
use std::alloc::{AllocError, Global};

/// An entry: the neighbour, its pseudonode, the metric, the link identifiers (RFC 5307, 1.1), the addresses of both ends,
/// and the SIDs of the adjacency (RFC 8667, 2.2.1).
#[derive(Debug, Drop)]
pub struct Reach {
    pub neighbour: SystemId,
    pub pseudonode: u8,
    pub metric: u32,
    pub ids: Option<LinkIds>,
    pub local: Option<u32>,
    pub remote: Option<u32>,
    pub adj: Few<AdjSid>,
}

/// The octets of an entry before its sub-TLVs.
const ENTRY_OCTETS: usize = 11;

/// What the three octets of a metric can't hold.
const METRICS: u32 = 1 << 24;

/// What the sub-TLVs of an entry say.
#[derive(Debug, Drop)]
pub struct LinkSubs {
    ids: Option<LinkIds>,
    local: Option<u32>,
    remote: Option<u32>,
    adj: Few<AdjSid>,
}

impl SubTlvs for LinkSubs {
    ghost use Rattle.sr_wire.specs.Fields.{AddFields, SayFields};
    ghost use Rattle.sr_wire.proofs.FieldSteps.{all_grows, fields_grow, first_grows};
    ghost use Rattle.sr_subtlv.specs.Addr.{neighbour_addr_sub, own_addr_sub};
    ghost use Rattle.sr_subtlv.specs.AdjSid.{adj_sid_sub};
    ghost use Rattle.sr_subtlv.specs.LinkIds.{ids_sub};
    ghost use Rattle.sr_lsp.specs.Reach.{link_fields};

    ghost said = { SayFields link_fields };

    ghost adds = { AddFields link_fields };

    ghost steps = { fields_grow link_fields (first_grows ids_sub (λ link. link.ids), (first_grows own_addr_sub (λ link. link.local), (first_grows neighbour_addr_sub (λ link. link.remote), (all_grows adj_sid_sub (λ link. link.adj), tt)))) };

    fn add(&mut self, alloc: Global, kind: u8, value: &[u8]) -> Result<(), AllocError> {
        add_first::<LinkIds, LinkIds>(alloc, &mut self.ids, kind, value)?;
        add_first::<u32, OwnAddr>(alloc, &mut self.local, kind, value)?;
        add_first::<u32, NeighbourAddr>(alloc, &mut self.remote, kind, value)?;
        add_all::<AdjSid, AdjSid>(alloc, &mut self.adj, kind, value)
    }
}

impl TlvKind<Part> for Reach {
    ghost kind = { reach_kind };

    fn read(alloc: Global, value: &[u8], parts: &mut Vec<Part>) -> Result<(), ReadFault> {
        read_entries::<Part, Reach>(alloc, value, parts)
    }

    fn length(&self) -> u128 {
        ENTRY_OCTETS as u128 + subs_length(self)
    }

    fn write(&self, out: &mut Vec<u8>) -> Result<(), AllocError> {
        let subs = subs_length(self) as u8;
        write_neighbour(self, subs, out)?;
        write_metric(self, subs, out)?;
        write_subs(self, out)
    }

    fn fits(&self) -> bool {
        self.metric < METRICS && all_fit::<AdjSid, AdjSid>(self.adj.as_slice())
    }

    fn widths(&self) {
        let _neighbour = self.neighbour.value();
        first_widths::<LinkIds, LinkIds>(&self.ids);
        first_widths::<u32, OwnAddr>(&self.local);
        first_widths::<u32, NeighbourAddr>(&self.remote);
        all_widths::<AdjSid, AdjSid>(self.adj.as_slice());
    }
}

impl Entries<Part> for Reach {
    ghost use Rattle.sr_lsp.specs.Reach.{SaysOne};

    ghost Piece = { Entry };

    ghost layout = { entry_layout };

    ghost says = { SaysOne };

    fn next(alloc: Global, value: &[u8], at: usize) -> Result<Next<Part>, ReadFault> {
        match entry_end(value, at) {
            Some(end) => match read_reach(alloc, &value[at..end]) {
                Ok(reach) => Ok(Next {
                    says: Some(Part::Reach(reach)),
                    end,
                }),
                Err(fault) => Err(fault.behind(at)),
            },
            None => Err(ReadFault::cut(at)),
        }
    }
}

/// Where the entry at a place ends, if it is whole.
#[tactic(auto, using(crate::proofs::ReachLaws::no_entry))]
fn entry_end(value: &[u8], at: usize) -> Option<usize>
    requires { at ≤ length value.now }
    ensures none { IfNone result
        ((entry : Entry) (rest : List ℕ) → drop at value.now ≡ entry_text entry ++ rest → ⊥) }
    ensures room { IfSome result (λ end. end ≤ length value.now) }
    ensures end { IfSome result (λ end. end ≡ at + 11 + slice_index value.now (at + 10)) }
{
    let left = value.len() - at;
    if left < ENTRY_OCTETS {
        return None;
    }
    let subs = usize::from(value[at + 10]);
    if left - ENTRY_OCTETS < subs {
        return None;
    }
    Some(at + ENTRY_OCTETS + subs)
}

/// What an entry says.
fn read_reach(alloc: Global, entry: &[u8]) -> Result<Reach, ReadFault>
    requires { 11 ≤ length entry.now }
    ensures says { MatchResult result (λ reach. SaysReach (reach_entry_of entry.now) reach)
        (λ fault. IfMalformed fault
        (λ malformed. entry_layout.fault
        (reach_entry_of entry.now) malformed.offset malformed.check)) }
    ensures within { IfErr result
        (λ fault. IfMalformed fault (λ malformed. malformed.offset ≤ length entry.now)) }
{
    let none = LinkSubs {
        ids: None,
        local: None,
        remote: None,
        adj: Few::empty(alloc),
    };
    let subs = match read_subs(alloc, &entry[ENTRY_OCTETS..], none) {
        Ok(subs) => subs,
        Err(fault) => return Err(fault.behind(ENTRY_OCTETS)),
    };
    Ok(Reach {
        neighbour: system_id_at(entry, 0),
        pseudonode: entry[6],
        metric: u24_at(entry, 7),
        ids: subs.ids,
        local: subs.local,
        remote: subs.remote,
        adj: subs.adj,
    })
}

/// How many octets the sub-TLVs have.
fn subs_length(reach: &Reach) -> u128
    ensures is { result ≡ length (reach_subs reach.now) }
    ensures small { result < 2 ^ 80 }
{
    first_length::<LinkIds, LinkIds>(&reach.ids)
        + first_length::<u32, OwnAddr>(&reach.local)
        + first_length::<u32, NeighbourAddr>(&reach.remote)
        + all_length::<AdjSid, AdjSid>(reach.adj.as_slice())
}

/// Appends the type and the length of the TLV whose sub-TLVs have `subs` octets, and the neighbour's system id.
fn write_neighbour(reach: &Reach, subs: u8, out: &mut Vec<u8>) -> Result<(), AllocError>
    requires { 11 + subs ≤ 255 }
    ensures ok { OnOk result (out.new.items ≡ out.old.items
        ++ (EXTENDED_REACH ∷ (11 + subs) ∷ big_bytes 6 reach.now.neighbour)) }
    ensures err { OnErr result (out.new.items ≡ out.old.items) }
{
    let mut octets = [EXTENDED_REACH, ENTRY_OCTETS as u8 + subs, 0, 0, 0, 0, 0, 0];
    BigEndian::write_u48(&mut octets[2..], reach.neighbour.value());
    out.extend_from_slice(&octets)
}

/// Appends the pseudonode, the metric, and how many octets the sub-TLVs have.
fn write_metric(reach: &Reach, subs: u8, out: &mut Vec<u8>) -> Result<(), AllocError>
    requires { FitsReach reach.now }
    ensures ok { OnOk result (out.new.items ≡ out.old.items
        ++ (reach.now.pseudonode ∷ big_bytes 3 reach.now.metric ++ subs ∷ [])) }
    ensures err { OnErr result (out.new.items ≡ out.old.items) }
{
    let mut octets = [reach.pseudonode, 0, 0, 0, subs];
    BigEndian::write_u24(&mut octets[1..], reach.metric);
    out.extend_from_slice(&octets)
}

/// Appends the sub-TLVs.
fn write_subs(reach: &Reach, out: &mut Vec<u8>) -> Result<(), AllocError>
    requires { FitsReach reach.now }
    ensures ok { OnOk result (out.new.items ≡ out.old.items ++ reach_subs reach.now) }
    ensures err { OnErr result (Continues out.old.items out.new.items) }
{
    write_first::<LinkIds, LinkIds>(&reach.ids, out)?;
    write_first::<u32, OwnAddr>(&reach.local, out)?;
    write_first::<u32, NeighbourAddr>(&reach.remote, out)?;
    write_all_subs::<AdjSid, AdjSid>(reach.adj.as_slice(), out)
}
