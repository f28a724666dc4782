//! The router capability, TLV 242 (RFC 7981, 2): read, written, and what it holds.

ghost use Rattle.std.specs.Prelude.{◌≡◌, ◌<◌, ◌≤◌, ◌+◌, ◌^◌, ◌++◌, ◌∷◌, [], length, IfErr, MatchResult, OnErr, OnOk};
ghost use Rattle.byteorder.specs.Endian.{big_bytes};
ghost use Rattle.sr_wire.specs.Fault.{IfMalformed};
ghost use Rattle.sr_wire.specs.Fields.{text_if_some, sub_text};
ghost use Rattle.sr_subtlv.specs.Msd.{msds_sub};
ghost use Rattle.sr_lsp.specs.Capability.{CapabilityFault, SaysCapability, capability_kind, if_any};

use crate::table::Part;
use byteorder::{BigEndian, ByteOrder};
use sr_model::Range;
use sr_seq::Seq;
use sr_subtlv::{Msd, SrCap};
use sr_wire::octets::u32_at;
use sr_wire::registry::{FRAME, ROUTER_CAPABILITY};
use sr_wire::{
    ReadFault, SubKind, SubTlvs, TlvKind, add_first, first_fits, first_length, first_widths,
    read_subs, write_first,
};
use std::alloc::{AllocError, Global};

/// The router id, the flags, the label ranges (RFC 8667, 3.1), and the maximum SID depths (RFC 8491, 2).
#[derive(Debug, Drop)]
pub struct Capability {
    pub router: u32,
    pub flags: u8,
    pub srgb: Option<SrCap>,
    pub msd: Seq<Msd>,
}

/// The octets before the sub-TLVs.
const OCTETS_BEFORE_SUBS: usize = 5;

/// What the sub-TLVs say.
#[derive(Debug, Drop)]
pub struct NodeSubs {
    srgb: Option<SrCap>,
    msd: Option<Seq<Msd>>,
}

impl SubTlvs for NodeSubs {
    ghost use Rattle.sr_wire.specs.Fields.{AddFields, SayFields};
    ghost use Rattle.sr_wire.proofs.FieldSteps.{fields_grow, first_grows};
    ghost use Rattle.sr_subtlv.specs.SrCap.{sr_cap_sub};
    ghost use Rattle.sr_lsp.specs.Capability.{node_fields};

    ghost said = { SayFields node_fields };

    ghost adds = { AddFields node_fields };

    ghost steps = { fields_grow node_fields (first_grows sr_cap_sub (λ node. node.srgb), (first_grows msds_sub (λ node. node.msd), tt)) };

    fn add(&mut self, alloc: Global, kind: u8, value: &[u8]) -> Result<(), AllocError> {
        add_first::<SrCap, SrCap>(alloc, &mut self.srgb, kind, value)?;
        add_first::<Seq<Msd>, Msd>(alloc, &mut self.msd, kind, value)
    }
}

impl TlvKind<Part> for Capability {
    ghost kind = { capability_kind };

    fn read(alloc: Global, value: &[u8], parts: &mut Vec<Part>) -> Result<(), ReadFault> {
        parts.push(Part::Capability(read_capability(alloc, value)?))?;
        Ok(())
    }

    fn length(&self) -> u128 {
        OCTETS_BEFORE_SUBS as u128
            + first_length::<SrCap, SrCap>(&self.srgb)
            + depths_length(&self.msd)
    }

    fn write(&self, out: &mut Vec<u8>) -> Result<(), AllocError> {
        write_router(self, self.length() as u8, out)?;
        write_first::<SrCap, SrCap>(&self.srgb, out)?;
        write_depths(&self.msd, out)
    }

    fn fits(&self) -> bool {
        first_fits::<SrCap, SrCap>(&self.srgb)
    }

    fn widths(&self) {
        let _router = self.router;
        first_widths::<SrCap, SrCap>(&self.srgb);
    }
}

/// What a value says.
fn read_capability(alloc: Global, value: &[u8]) -> Result<Capability, ReadFault>
    ensures says { MatchResult result (λ capability. SaysCapability value.now capability)
        (λ fault. IfMalformed fault
        (λ malformed. CapabilityFault value.now malformed.offset malformed.check)) }
    ensures within { IfErr result
        (λ fault. IfMalformed fault (λ malformed. malformed.offset ≤ length value.now)) }
{
    if value.len() < 4 {
        return Err(ReadFault::cut(0));
    }
    if value.len() < OCTETS_BEFORE_SUBS {
        return Err(ReadFault::cut(4));
    }
    let none = NodeSubs {
        srgb: None,
        msd: None,
    };
    match read_subs(alloc, &value[OCTETS_BEFORE_SUBS..], none) {
        Ok(subs) => Ok(Capability {
            router: u32_at(value, 0),
            flags: value[4],
            srgb: subs.srgb,
            msd: match subs.msd {
                Some(msd) => msd,
                None => Seq::empty(alloc),
            },
        }),
        Err(fault) => Err(fault.behind(OCTETS_BEFORE_SUBS)),
    }
}

/// How many octets the sub-TLV of the depths has, which is there where they are.
fn depths_length(depths: &Seq<Msd>) -> u128
    ensures is { result ≡ length (text_if_some (sub_text msds_sub) (if_any depths.now)) }
    ensures small { result < 2 ^ 68 }
{
    if depths.as_slice().is_empty() {
        0
    } else {
        FRAME + Msd::length(depths)
    }
}

/// Appends the type and the length of the TLV, the router id, and the flags.
fn write_router(capability: &Capability, octets: u8, out: &mut Vec<u8>) -> Result<(), AllocError>
    ensures ok { OnOk result (out.new.items ≡ out.old.items
        ++ (ROUTER_CAPABILITY ∷ octets ∷ big_bytes 4 capability.now.router ++ capability.now.flags ∷ [])) }
    ensures err { OnErr result (out.new.items ≡ out.old.items) }
{
    let mut front = [ROUTER_CAPABILITY, octets, 0, 0, 0, 0, capability.flags];
    BigEndian::write_u32(&mut front[2..], capability.router);
    out.extend_from_slice(&front)
}

/// Appends the sub-TLV of the depths, where there are some.
fn write_depths(depths: &Seq<Msd>, out: &mut Vec<u8>) -> Result<(), AllocError>
    requires { length (text_if_some (sub_text msds_sub) (if_any depths.now)) ≤ 255 }
    ensures ok { OnOk result
        (out.new.items ≡ out.old.items ++ text_if_some (sub_text msds_sub) (if_any depths.now)) }
    ensures err { OnErr result (out.new.items ≡ out.old.items) }
{
    if depths.as_slice().is_empty() {
        Ok(())
    } else {
        Msd::write(depths, out)
    }
}
