//! SR-Capabilities (RFC 8667, 3.1): read, written, and what they hold.

ghost use Rattle.std.specs.Prelude.{◌≡◌, ◌↔◌, ◌≤◌, ◌+◌, ◌*◌, ◌++◌, List, length, take, drop, All, IfOk, IfSome, IsTrue, MatchOption, OnErr, OnOk};
ghost use Rattle.sr_wire.specs.Octets.{Continues};
ghost use Rattle.sr_model.specs.declared.label.Range.{Range};
ghost use Rattle.sr_wire.specs.Fields.{sub_text};
ghost use Rattle.sr_subtlv.specs.declared.sr_cap.SrCap.{SrCap};
ghost use Rattle.sr_subtlv.specs.SrCap.{AreRanges, FitsRange, FitsSrCap, IsRange, IsSrCap, range_text, sr_cap_sub, sr_cap_value};

use crate::sid::LABEL_BITS;
use byteorder::{BigEndian, ByteOrder};
use sr_model::Range;
use sr_seq::Seq;
use sr_wire::SubKind;
use sr_wire::octets::u24_at;
use sr_wire::registry::{LONGEST_VALUE, SID_LABEL, SR_CAPABILITIES};
use std::alloc::{AllocError, Global};

/// What a node says of segment routing: its flags, and the ranges of labels of its SRGB (RFC 8667, 3.1).
#[derive(Debug, Drop)]
pub struct SrCap {
    pub flags: u8,
    pub ranges: Seq<Range>,
}

/// How many octets a range has.
const RANGE: usize = 8;

/// How many octets the first label of a range has.
const LABEL_OCTETS: u8 = 3;

/// The least size that three octets can't hold.
const SIZES: u32 = 1 << 24;

impl SubKind<SrCap> for SrCap {
    ghost use Rattle.std.specs.Prelude.{◌^◌};

    ghost sub = { sr_cap_sub };

    ghost most = { 2 ^ 68 };

    fn kind() -> u8 {
        SR_CAPABILITIES
    }

    /// A value says nothing where it isn't an octet of flags and one or more whole ranges whose first labels are labels.
    fn read(alloc: Global, value: &[u8]) -> Result<Option<SrCap>, AllocError> {
        if value.len() < 2 {
            return Ok(None);
        }
        match read_ranges(alloc, &value[1..])? {
            Some(ranges) => Ok(Some(SrCap {
                flags: value[0],
                ranges: Seq::new(ranges),
            })),
            None => Ok(None),
        }
    }

    fn length(x: &SrCap) -> u128 {
        1 + RANGE as u128 * x.ranges.as_slice().len() as u128
    }

    fn write(x: &SrCap, out: &mut Vec<u8>) -> Result<(), AllocError> {
        write_sr_cap(x, out)
    }

    fn fits(x: &SrCap) -> bool {
        !x.ranges.as_slice().is_empty() && fit_ranges(x.ranges.as_slice())
    }

    fn widths(_x: &SrCap) {}
}

/// The ranges that the octets are, or nothing where they aren't whole ranges.
fn read_ranges(alloc: Global, octets: &[u8]) -> Result<Option<Vec<Range>>, AllocError>
    ensures { IfOk result
        (λ found. MatchOption found ((ranges : List Range) → AreRanges octets.now ranges → ⊥)
        (λ ranges. AreRanges octets.now ranges.items)) }
{
    let mut ranges = Vec::with_capacity(alloc, octets.len() / RANGE)?;
    let mut at = 0;
    while at < octets.len() {
        match read_range(octets, at) {
            Some(range) => {
                ranges.push(range)?;
                at += RANGE;
            }
            None => return Ok(None),
        }
    }
    Ok(Some(ranges))
}

/// The range at a place.
fn read_range(octets: &[u8], at: usize) -> Option<Range>
    requires { at ≤ length octets.now }
    ensures whole { IfSome result (λ range. at + 8 ≤ length octets.now) }
    ensures range { MatchOption result
        ((range : Range) → IsRange (take 8 (drop at octets.now)) range → ⊥)
        (IsRange (take 8 (drop at octets.now))) }
{
    if octets.len() - at < RANGE {
        return None;
    }
    if octets[at + 3] != SID_LABEL {
        return None;
    }
    if octets[at + 4] != LABEL_OCTETS {
        return None;
    }
    Some(Range {
        first: u24_at(octets, at + 5) & LABEL_BITS,
        size: u24_at(octets, at),
    })
}

/// Whether each size fits three octets, and each first label 20 bits.
fn fit_ranges(ranges: &[Range]) -> bool
    ensures { IsTrue result ↔ All FitsRange ranges.now }
{
    for range in ranges {
        if range.size >= SIZES || range.first > LABEL_BITS {
            return false;
        }
    }
    true
}

/// Appends the sub-TLV; an error leaves the octets as they were.
fn write_sr_cap(cap: &SrCap, out: &mut Vec<u8>) -> Result<(), AllocError>
    requires fits { FitsSrCap cap.now }
    requires few { 1 + 8 * length cap.now.ranges ≤ LONGEST_VALUE }
    ensures ok { OnOk result (out.new.items ≡ out.old.items ++ sub_text sr_cap_sub cap.now) }
    ensures err { OnErr result (out.new.items ≡ out.old.items) }
{
    let start = out.len();
    match push_sr_cap(cap, out) {
        Ok(()) => Ok(()),
        Err(fault) => {
            out.truncate(start);
            Err(fault)
        }
    }
}

/// Appends the sub-TLV. After an error what was there still stands, and other octets may follow it.
fn push_sr_cap(cap: &SrCap, out: &mut Vec<u8>) -> Result<(), AllocError>
    requires fits { FitsSrCap cap.now }
    requires few { 1 + 8 * length cap.now.ranges ≤ LONGEST_VALUE }
    ensures ok { OnOk result (out.new.items ≡ out.old.items ++ sub_text sr_cap_sub cap.now) }
    ensures err { OnErr result (Continues out.old.items out.new.items) }
{
    let ranges = cap.ranges.as_slice();
    out.extend_from_slice(&[SR_CAPABILITIES, (1 + RANGE * ranges.len()) as u8, cap.flags])?;
    for &range in ranges {
        write_range(range, out)?;
    }
    Ok(())
}

/// Appends a range.
fn write_range(range: Range, out: &mut Vec<u8>) -> Result<(), AllocError>
    requires { FitsRange range }
    ensures ok { OnOk result (out.new.items ≡ out.old.items ++ range_text range) }
    ensures err { OnErr result (out.new.items ≡ out.old.items) }
{
    let mut octets = [0, 0, 0, SID_LABEL, LABEL_OCTETS, 0, 0, 0];
    BigEndian::write_u24(&mut octets, range.size);
    BigEndian::write_u24(&mut octets[5..], range.first);
    out.extend_from_slice(&octets)
}

/// What is written of SR-Capabilities is read as those, and as no others.
pub fn sr_cap_is_read_again()
    ensures { (given read : SrCap) → FitsSrCap given
        → (IsSrCap (sr_cap_value given) read ↔ (read ≡ given)) }
{}
