//! Shared-risk link groups, TLV 138 (RFC 5307, 1.4): read, written, and what they hold.

ghost use Rattle.std.specs.Prelude.{◌≡◌, ◌%◌, ◌≤◌, ◌+◌, ◌++◌, ◌∷◌, [], length, IfSome, MatchOption, OnErr, OnOk};
ghost use Rattle.sr_wire.specs.Octets.{Continues};
ghost use Rattle.byteorder.specs.Endian.{big_bytes};
ghost use Rattle.sr_wire.specs.Numbers.{bit_if, numbers_text};
ghost use Rattle.sr_lsp.specs.declared.table.Part.{Part};
ghost use Rattle.sr_lsp.specs.Risk.{CutField, risk_kind};

use crate::octets::system_id_at;
use crate::table::Part;
use byteorder::{BigEndian, ByteOrder};
use sr_model::SystemId;
use sr_seq::Few;
use sr_wire::octets::u32_at;
use sr_wire::registry::{RISK_NUMBERED, SHARED_RISK};
use sr_wire::{ReadFault, TlvKind, numbers_length, numbers_widths, read_numbers, write_numbers};
use std::alloc::{AllocError, Global};

/// The neighbour and its pseudonode, whether the link is numbered, the addresses or identifiers of both ends, and the
/// groups.
#[derive(Debug, Drop)]
pub struct Risk {
    pub neighbour: SystemId,
    pub pseudonode: u8,
    pub numbered: bool,
    pub local: u32,
    pub remote: u32,
    pub groups: Few<u32>,
}

/// The octets before the groups.
const OCTETS_BEFORE_GROUPS: usize = 16;

impl TlvKind<Part> for Risk {
    ghost kind = { risk_kind };

    fn read(alloc: Global, value: &[u8], parts: &mut Vec<Part>) -> Result<(), ReadFault> {
        if let Some(offset) = cut_field(value.len()) {
            return Err(ReadFault::cut(offset));
        }
        let risk = Risk {
            neighbour: system_id_at(value, 0),
            pseudonode: value[6],
            numbered: value[7] % 2 == RISK_NUMBERED,
            local: u32_at(value, 8),
            remote: u32_at(value, 12),
            groups: read_numbers(alloc, value, OCTETS_BEFORE_GROUPS)?,
        };
        parts.push(Part::Risk(risk))?;
        Ok(())
    }

    fn length(&self) -> u128 {
        OCTETS_BEFORE_GROUPS as u128 + numbers_length(self.groups.as_slice())
    }

    fn write(&self, out: &mut Vec<u8>) -> Result<(), AllocError> {
        write_neighbour(self, self.length() as u8, out)?;
        write_flags(self, out)?;
        write_link_and_groups(self, out)
    }

    fn fits(&self) -> bool {
        true
    }

    fn widths(&self) {
        let _neighbour = self.neighbour.value();
        let _local = self.local;
        let _remote = self.remote;
        numbers_widths(self.groups.as_slice());
    }
}

/// The first field that passes the end of a value of `length` octets.
#[tactic(auto, using(crate::proofs::RiskLaws::cut_group))]
fn cut_field(length: usize) -> Option<usize>
    ensures cut { MatchOption result ((16 ≤ length) × (length % 4 ≡ 0)) (λ at. CutField length at) }
    ensures within { IfSome result (λ at. at ≤ length) }
{
    if length < 6 {
        return Some(0);
    }
    if length < 8 {
        return Some(length);
    }
    if length < 12 {
        return Some(8);
    }
    if length < OCTETS_BEFORE_GROUPS {
        return Some(12);
    }
    let cut = length % 4;
    if cut != 0 {
        return Some(length - cut);
    }
    None
}

/// Appends the type and the length of the TLV, and the neighbour's system id.
fn write_neighbour(risk: &Risk, octets: u8, out: &mut Vec<u8>) -> Result<(), AllocError>
    ensures ok { OnOk result (out.new.items ≡ out.old.items
        ++ (SHARED_RISK ∷ octets ∷ big_bytes 6 risk.now.neighbour)) }
    ensures err { OnErr result (out.new.items ≡ out.old.items) }
{
    let mut front = [SHARED_RISK, octets, 0, 0, 0, 0, 0, 0];
    BigEndian::write_u48(&mut front[2..], risk.neighbour.value());
    out.extend_from_slice(&front)
}

/// Appends the pseudonode, and the flags, of which only the lowest is used.
fn write_flags(risk: &Risk, out: &mut Vec<u8>) -> Result<(), AllocError>
    ensures ok { OnOk result (out.new.items ≡ out.old.items
        ++ (risk.now.pseudonode ∷ bit_if risk.now.numbered RISK_NUMBERED ∷ [])) }
    ensures err { OnErr result (out.new.items ≡ out.old.items) }
{
    out.extend_from_slice(&[risk.pseudonode, u8::from(risk.numbered)])
}

/// Appends the two fields that name the link, and the groups.
fn write_link_and_groups(risk: &Risk, out: &mut Vec<u8>) -> Result<(), AllocError>
    ensures ok { OnOk result (out.new.items ≡ out.old.items
        ++ (big_bytes 4 risk.now.local ++ big_bytes 4 risk.now.remote ++ numbers_text risk.now.groups)) }
    ensures err { OnErr result (Continues out.old.items out.new.items) }
{
    let mut link = [0; 8];
    BigEndian::write_u32(&mut link, risk.local);
    BigEndian::write_u32(&mut link[4..], risk.remote);
    out.extend_from_slice(&link)?;
    write_numbers(risk.groups.as_slice(), out)
}
