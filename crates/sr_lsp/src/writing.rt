//! Writing a link-state PDU.

ghost use Rattle.std.specs.Prelude.{◌≡◌, ◌↔◌, ℕ, ◌++◌, ◌∷◌, List, [], All, IfErr, IfOk, IsTrue, OnErr, OnOk};
ghost use Rattle.sr_wire.specs.Octets.{Continues};
ghost use Rattle.byteorder.specs.Endian.{big_bytes};
ghost use Rattle.sr_wire.specs.Parts.{IsFirstTooLong, HasShortValue};
ghost use Rattle.sr_lsp.specs.InRange.{HasPartWidths, HasWidths, FitsLsp};
ghost use Rattle.sr_lsp.specs.Lsp.{Reads};
ghost use Rattle.sr_lsp.specs.Table.{spelling};
ghost use Rattle.sr_lsp.specs.Text.{HasSpelling, header_text, lsp_text, pdu_length};
ghost use Rattle.sr_lsp.specs.WriteFault.{IsWriteFault};

use crate::header::HEADER_OCTETS;
use crate::lsp::Lsp;
use crate::parts::Parts;
use crate::table::{fits_part, part_length, part_widths, write_part};
use crate::write_fault::WriteFault;
use byteorder::{BigEndian, ByteOrder};
use sr_wire::registry::{FRAME, LONGEST_PDU, LONGEST_VALUE};
use std::alloc::{AllocError, Global};

/// Whether every field fits its layout.
pub fn in_range(lsp: &Lsp) -> bool
    ensures { IsTrue result ↔ FitsLsp lsp.now }
{
    let parts = &lsp.parts;
    for place in 0..parts.count() {
        if !fits_part(parts.at(place)) {
            return false;
        }
    }
    true
}

/// The octets of the PDU in its one spelling: the header, and then each part in a TLV of its own, in the order of the
/// parts. Sub-TLVs stand in ascending order of type, and what isn't there isn't written.
///
/// The first part whose value would have more than 255 octets is `PartTooLong`. Where there is none, a PDU of more than
/// 65535 octets is `PduTooLong`. No other PDU is refused, but memory may run out at any. What is written is read as the
/// same PDU, whatever octets follow.
pub fn write_lsp(alloc: Global, lsp: &Lsp) -> Result<Vec<u8>, WriteFault>
    requires { FitsLsp lsp.now }
    ensures text { IfOk result (λ octets. octets.items ≡ lsp_text lsp.now) }
    ensures spelled { IfOk result (λ octets. HasSpelling lsp.now) }
    ensures again { IfOk result (λ octets. (rest : List ℕ) → Reads (octets.items ++ rest) lsp.now) }
    ensures refused { IfErr result (λ fault. IsWriteFault lsp.now fault) }
{
    let octets = match lsp_length(lsp) {
        Ok(octets) => octets,
        Err(part) => return Err(WriteFault::PartTooLong { part }),
    };
    if octets > LONGEST_PDU {
        return Err(WriteFault::PduTooLong { length: octets });
    }
    widths_of(lsp);
    match write_octets(alloc, lsp, octets as u16) {
        Ok(text) => Ok(text),
        Err(error) => Err(WriteFault::Memory(error)),
    }
}

/// The numbers of the header and of every part fit their octets.
fn widths_of(lsp: &Lsp)
    ensures { HasWidths lsp.now }
{
    let _lifetime = lsp.lifetime;
    let _system = lsp.id.system.value();
    let _sequence = lsp.sequence;
    let _checksum = lsp.checksum;
    widths_of_parts(&lsp.parts);
}

/// The numbers of every part fit their octets.
fn widths_of_parts(parts: &Parts)
    ensures { All HasPartWidths parts.now }
{
    for place in 0..parts.count() {
        part_widths(parts.at(place));
    }
}

/// How many octets the PDU has, or the first part that is too long.
fn lsp_length(lsp: &Lsp) -> Result<u128, usize>
    requires { FitsLsp lsp.now }
    ensures is { IfOk result (λ octets. octets ≡ pdu_length lsp.now) }
    ensures short { IfOk result (λ octets. All (HasShortValue spelling) lsp.now.parts) }
    ensures long { IfErr result (IsFirstTooLong spelling lsp.now.parts) }
{
    let mut octets = HEADER_OCTETS as u128;
    let parts = &lsp.parts;
    for place in 0..parts.count() {
        let own = part_length(parts.at(place));
        if own > LONGEST_VALUE {
            return Err(place);
        }
        octets += FRAME + own;
    }
    Ok(octets)
}

/// The encoding of a PDU, which has `octets` octets.
fn write_octets(alloc: Global, lsp: &Lsp, octets: u16) -> Result<Vec<u8>, AllocError>
    requires fits { FitsLsp lsp.now }
    requires short { All (HasShortValue spelling) lsp.now.parts }
    requires whole { octets ≡ pdu_length lsp.now }
    ensures { IfOk result (λ text. text.items ≡ lsp_text lsp.now) }
{
    let mut out = Vec::with_capacity(alloc, usize::from(octets))?;
    write_header(lsp, octets, &mut out)?;
    let parts = &lsp.parts;
    for place in 0..parts.count() {
        write_part(parts.at(place), &mut out)?;
    }
    Ok(out)
}

/// Appends the header of a PDU that has `octets` octets. After an error what was there still stands, and other octets
/// may follow it.
fn write_header(lsp: &Lsp, octets: u16, out: &mut Vec<u8>) -> Result<(), AllocError>
    ensures ok { OnOk result (out.new.items ≡ out.old.items ++ header_text lsp.now octets) }
    ensures err { OnErr result (Continues out.old.items out.new.items) }
{
    write_fixed(out)?;
    write_lifetime(lsp, octets, out)?;
    write_id(lsp, out)?;
    write_version(lsp, out)
}

/// Appends the octets that each link-state PDU of level 2 begins with.
fn write_fixed(out: &mut Vec<u8>) -> Result<(), AllocError>
    ensures ok { OnOk result
        (out.new.items ≡ out.old.items ++ (0x83 ∷ 27 ∷ 1 ∷ 0 ∷ 20 ∷ 1 ∷ 0 ∷ 0 ∷ [])) }
    ensures err { OnErr result (out.new.items ≡ out.old.items) }
{
    out.extend_from_slice(&[0x83, 27, 1, 0, 20, 1, 0, 0])
}

/// Appends the length of the PDU, and its lifetime.
fn write_lifetime(lsp: &Lsp, octets: u16, out: &mut Vec<u8>) -> Result<(), AllocError>
    ensures ok { OnOk result
        (out.new.items ≡ out.old.items ++ (big_bytes 2 octets ++ big_bytes 2 lsp.now.lifetime)) }
    ensures err { OnErr result (out.new.items ≡ out.old.items) }
{
    let mut numbers = [0; 4];
    BigEndian::write_u16(&mut numbers, octets);
    BigEndian::write_u16(&mut numbers[2..], lsp.lifetime);
    out.extend_from_slice(&numbers)
}

/// Appends the name of the PDU.
fn write_id(lsp: &Lsp, out: &mut Vec<u8>) -> Result<(), AllocError>
    ensures ok { OnOk result (out.new.items ≡ out.old.items
        ++ (big_bytes 6 lsp.now.id.system ++ lsp.now.id.pseudonode ∷ lsp.now.id.fragment ∷ [])) }
    ensures err { OnErr result (out.new.items ≡ out.old.items) }
{
    let mut id = [0, 0, 0, 0, 0, 0, lsp.id.pseudonode, lsp.id.fragment];
    BigEndian::write_u48(&mut id, lsp.id.system.value());
    out.extend_from_slice(&id)
}

/// Appends the sequence number, the checksum, and the flags.
fn write_version(lsp: &Lsp, out: &mut Vec<u8>) -> Result<(), AllocError>
    ensures ok { OnOk result (out.new.items ≡ out.old.items
        ++ (big_bytes 4 lsp.now.sequence ++ big_bytes 2 lsp.now.checksum ++ lsp.now.flags ∷ [])) }
    ensures err { OnErr result (out.new.items ≡ out.old.items) }
{
    let mut version = [0, 0, 0, 0, 0, 0, lsp.flags];
    BigEndian::write_u32(&mut version, lsp.sequence);
    BigEndian::write_u16(&mut version[4..], lsp.checksum);
    out.extend_from_slice(&version)
}
