//! Extended IP reachability, TLV 135 (RFC 5305, 4): read, written, and what it holds.

ghost use Rattle.std.specs.Prelude.{◌≡◌, ℕ, ◌↔◌, ◌<◌, ◌≤◌, ◌+◌, ◌^◌, ◌++◌, ◌%◌, ◌∷◌, [], ◌==◌, List, All, drop, length, replicate, slice_index, slice_range, take, IfNone, IfSome, IsTrue, OnErr, OnOk};
ghost use Rattle.byteorder.specs.Endian.{big_bytes, big_number};
ghost use Rattle.sr_wire.specs.Octets.{Continues, octet};
ghost use Rattle.sr_lsp.specs.declared.table.Part.{Part};
ghost use Rattle.sr_wire.specs.Entries.{if_some};
ghost use Rattle.sr_wire.specs.Fields.{SayFields};
ghost use Rattle.sr_wire.specs.Sub.{AreSubs};
ghost use Rattle.sr_wire.specs.Tlv.{Tlv};
ghost use Rattle.sr_lsp.specs.Prefix.{FitsPrefix, IsExtent, IsPrefixAt, IsPrefixEntry, PrefixEntry, SaysOwn, control_octet, counted_subs, prefix_entry_at, prefix_fields, prefix_kind, prefix_layout, prefix_octets, prefix_text};

use crate::prefix_extent::Extent;
use crate::table::Part;
use byteorder::{BigEndian, ByteOrder};
use sr_seq::Few;
use sr_subtlv::PrefixSid;
use sr_wire::octets::u32_at;
use sr_wire::registry::{ADDRESS_BITS, EXTENDED_PREFIX, PREFIX_DOWN, PREFIX_SUBS};
use sr_wire::{
    Entries, Next, ReadFault, SubTlvs, TlvKind, add_all, all_fit, all_length, all_widths,
    read_entries, read_subs, write_all_subs,
};
use std::alloc::{AllocError, Global};

/// An entry: the metric, whether it came down from a higher level, the length of the prefix in bits, the prefix, and its
/// SIDs (RFC 8667, 2.1).
#[derive(Debug, Drop)]
pub struct Prefix {
    pub metric: u32,
    pub down: bool,
    pub length: u8,
    pub prefix: u32,
    pub sids: Few<PrefixSid>,
}

/// The octets of an entry before its prefix.
const OCTETS_BEFORE_PREFIX: usize = 5;

/// The bits of the control octet that hold the length of the prefix.
const LENGTH: u8 = 0x3f;

/// What the sub-TLVs of an entry say.
#[derive(Debug, Drop)]
pub struct PrefixSubs {
    sids: Few<PrefixSid>,
}

impl SubTlvs for PrefixSubs {
    ghost use Rattle.sr_wire.specs.Fields.{AddFields};
    ghost use Rattle.sr_wire.proofs.FieldSteps.{all_grows, fields_grow};
    ghost use Rattle.sr_subtlv.specs.PrefixSid.{prefix_sid_sub};

    ghost said = { SayFields prefix_fields };

    ghost adds = { AddFields prefix_fields };

    ghost steps = { fields_grow prefix_fields (all_grows prefix_sid_sub (λ subs. subs.sids), tt) };

    fn add(&mut self, alloc: Global, kind: u8, value: &[u8]) -> Result<(), AllocError> {
        add_all::<PrefixSid, PrefixSid>(alloc, &mut self.sids, kind, value)
    }
}

impl TlvKind<Part> for Prefix {
    ghost kind = { prefix_kind };

    fn read(alloc: Global, value: &[u8], parts: &mut Vec<Part>) -> Result<(), ReadFault> {
        read_entries::<Part, Prefix>(alloc, value, parts)
    }

    fn length(&self) -> u128 {
        OCTETS_BEFORE_PREFIX as u128 + octets_of(self.length) as u128 + subs_length(self)
    }

    fn write(&self, out: &mut Vec<u8>) -> Result<(), AllocError> {
        write_metric(self, self.length() as u8, out)?;
        write_address(self.prefix, self.length, out)?;
        write_subs(self, out)
    }

    fn fits(&self) -> bool {
        self.length <= ADDRESS_BITS
            && is_zero_past(self.prefix, self.length)
            && all_fit::<PrefixSid, PrefixSid>(self.sids.as_slice())
    }

    fn widths(&self) {
        let _metric = self.metric;
        let _number = self.prefix;
        all_widths::<PrefixSid, PrefixSid>(self.sids.as_slice());
    }
}

impl Entries<Part> for Prefix {
    ghost Piece = { PrefixEntry };

    ghost layout = { prefix_layout };

    ghost says = { SaysOwn };

    fn next(alloc: Global, value: &[u8], at: usize) -> Result<Next<Part>, ReadFault> {
        match extent_of(value, at) {
            Some(extent) => {
                let none = PrefixSubs {
                    sids: Few::empty(alloc),
                };
                match read_subs(alloc, &value[extent.subs_from..extent.end], none) {
                    Ok(subs) => Ok(Next {
                        says: part_at(value, at, extent, subs),
                        end: extent.end,
                    }),
                    Err(fault) => Err(fault.behind(extent.subs_from)),
                }
            }
            None => Err(ReadFault::cut(at)),
        }
    }
}

/// Where the parts of the entry at a place stand, if it is whole.
fn extent_of(value: &[u8], at: usize) -> Option<Extent>
    requires { at ≤ length value.now }
    ensures none { IfNone result
        ((entry : PrefixEntry) (rest : List ℕ) → IsPrefixEntry entry
        → drop at value.now ≡ prefix_text entry ++ rest → ⊥) }
    ensures extent { IfSome result (IsExtent value.now at) }
{
    if value.len() - at < OCTETS_BEFORE_PREFIX {
        return None;
    }
    let prefix_end = at + OCTETS_BEFORE_PREFIX + octets_of(bits_in(value[at + 4]));
    if value[at + 4] & PREFIX_SUBS == 0 {
        if value.len() < prefix_end {
            return None;
        }
        return Some(Extent {
            prefix_end,
            subs_from: prefix_end,
            end: prefix_end,
        });
    }
    if value.len() <= prefix_end {
        return None;
    }
    let subs_from = prefix_end + 1;
    let end = subs_from + usize::from(value[prefix_end]);
    if value.len() < end {
        return None;
    }
    Some(Extent {
        prefix_end,
        subs_from,
        end,
    })
}

/// The part of an entry, unless its prefix has more than 32 bits.
fn part_at(value: &[u8], at: usize, extent: Extent, said: PrefixSubs) -> Option<Part>
    requires extent { IsExtent value.now at extent }
    requires said { (subs : List Tlv)
        × AreSubs (slice_range value.now extent.subs_from extent.end) subs
        × SayFields prefix_fields subs said }
    ensures { SaysOwn (prefix_entry_at value.now at extent) (if_some result) }
{
    if bits_in(value[at + 4]) > ADDRESS_BITS {
        return None;
    }
    let prefix = prefix_at(value, at, extent.prefix_end, said.sids);
    Some(Part::Prefix(prefix))
}

/// The part of an entry whose prefix has at most 32 bits.
fn prefix_at(value: &[u8], at: usize, prefix_end: usize, sids: Few<PrefixSid>) -> Prefix
    requires room { at + 5 ≤ prefix_end }
    requires within { prefix_end ≤ length value.now }
    ensures { IsPrefixAt value.now at prefix_end sids result }
{
    Prefix {
        metric: u32_at(value, at),
        down: value[at + 4] & PREFIX_DOWN != 0,
        length: bits_in(value[at + 4]),
        prefix: prefix_of(&value[at + OCTETS_BEFORE_PREFIX..prefix_end]),
        sids,
    }
}

/// The prefix in up to four octets; octets that aren't there are 0.
fn prefix_of(octets: &[u8]) -> u32
    ensures { result ≡ big_number 4 (octets.now ++ replicate 4 0) }
{
    let first = octet_or_0(octets, 0);
    let second = octet_or_0(octets, 1);
    let third = octet_or_0(octets, 2);
    let fourth = octet_or_0(octets, 3);
    u32::from_be_bytes([first, second, third, fourth])
}

/// The octet at a place, or 0 behind the end.
fn octet_or_0(octets: &[u8], at: usize) -> u8
    ensures { result ≡ slice_index octets.now at }
{
    octets.get(at).copied().unwrap_or(0)
}

/// Whether the octets of a prefix past its length are 0.
fn is_zero_past(prefix: u32, bits: u8) -> bool
    requires { bits ≤ 32 }
    ensures { IsTrue result
        ↔ All (λ octet. octet ≡ 0) (drop (prefix_octets bits) (big_bytes 4 prefix)) }
{
    let octets = prefix.to_be_bytes();
    for &octet in &octets[octets_of(bits)..] {
        if octet != 0 {
            return false;
        }
    }
    true
}

/// The length of a prefix in bits, by the control octet.
fn bits_in(control: u8) -> u8
    ensures { result ≡ control % 64 }
{
    control & LENGTH
}

/// How many octets hold `bits` bits.
fn octets_of(bits: u8) -> usize
    ensures is { result ≡ prefix_octets bits }
    ensures small { result ≤ 32 }
{
    usize::from(bits).div_ceil(8)
}

/// How many octets the sub-TLVs have, with their length before them, where there are some.
fn subs_length(prefix: &Prefix) -> u128
    ensures is { result ≡ length (counted_subs prefix.now) }
    ensures small { result < 2 ^ 80 }
{
    if prefix.sids.as_slice().is_empty() {
        0
    } else {
        1 + all_length::<PrefixSid, PrefixSid>(prefix.sids.as_slice())
    }
}

/// Appends the type and the length of the TLV, the metric, and the control octet.
fn write_metric(prefix: &Prefix, octets: u8, out: &mut Vec<u8>) -> Result<(), AllocError>
    requires { FitsPrefix prefix.now }
    ensures ok { OnOk result (out.new.items ≡ out.old.items
        ++ (EXTENDED_PREFIX ∷ octets ∷ big_bytes 4 prefix.now.metric ++ control_octet prefix.now ∷ [])) }
    ensures err { OnErr result (out.new.items ≡ out.old.items) }
{
    let mut front = [EXTENDED_PREFIX, octets, 0, 0, 0, 0, control(prefix)];
    BigEndian::write_u32(&mut front[2..], prefix.metric);
    out.extend_from_slice(&front)
}

/// The control octet of an entry.
fn control(prefix: &Prefix) -> u8
    requires { FitsPrefix prefix.now }
    ensures { result ≡ control_octet prefix.now }
{
    let down = if prefix.down { PREFIX_DOWN } else { 0 };
    let subs = if prefix.sids.as_slice().is_empty() {
        0
    } else {
        PREFIX_SUBS
    };
    down + subs + prefix.length
}

/// Appends as few octets of an address as hold `bits` bits.
fn write_address(address: u32, bits: u8, out: &mut Vec<u8>) -> Result<(), AllocError>
    requires { bits ≤ 32 }
    ensures ok { OnOk result
        (out.new.items ≡ out.old.items ++ take (prefix_octets bits) (big_bytes 4 address)) }
    ensures err { OnErr result (out.new.items ≡ out.old.items) }
{
    let mut octets = [0; 4];
    BigEndian::write_u32(&mut octets, address);
    out.extend_from_slice(&octets[..octets_of(bits)])
}

/// Appends the sub-TLVs behind their length, where there are some.
fn write_subs(prefix: &Prefix, out: &mut Vec<u8>) -> Result<(), AllocError>
    requires fits { FitsPrefix prefix.now }
    requires short { length (counted_subs prefix.now) ≤ 255 }
    ensures ok { OnOk result (out.new.items ≡ out.old.items ++ counted_subs prefix.now) }
    ensures err { OnErr result (Continues out.old.items out.new.items) }
{
    let sids = prefix.sids.as_slice();
    if sids.is_empty() {
        return Ok(());
    }
    out.push(all_length::<PrefixSid, PrefixSid>(sids) as u8)?;
    write_all_subs::<PrefixSid, PrefixSid>(sids, out)
}
