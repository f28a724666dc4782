//! SIDs, as the Prefix-SID and the Adj-SID hold one.

ghost use Rattle.std.specs.Prelude.{◌≡◌, ◌↔◌, ◌+◌, ◌≤◌, ◌++◌, ◌∷◌, length, IsTrue, MatchOption, OnErr, OnOk};
ghost use Rattle.sr_wire.specs.Tlv.{tlv_text};
ghost use Rattle.sr_subtlv.specs.declared.sid.Sid.{Sid};
ghost use Rattle.sr_subtlv.specs.Sid.{FitsOctets, FitsSid, SaysSid, sid_text};

use byteorder::{BigEndian, ByteOrder};
use sr_wire::octets::{u24_at, u32_at};
use std::alloc::AllocError;

/// A SID: an index into the label ranges of each node, or a label (RFC 8667, 2.1.1.1).
#[derive(Clone, Copy, Debug, PartialEq, Eq)]
pub enum Sid {
    Index(u32),
    Label(u32),
}

/// The bits of a label.
pub(crate) const LABEL_BITS: u32 = 0xf_ffff;

/// The SID that octets behind flags say, where it has the form that the flags tell. The mask has the V and the L flag.
pub(crate) fn read_sid(mask: u8, flags: u8, octets: &[u8]) -> Option<Sid>
    ensures { MatchOption result ((sid : Sid) → SaysSid mask flags octets.now sid → ⊥)
        (SaysSid mask flags octets.now) }
{
    let form = flags & mask;
    if form == 0 && octets.len() == 4 {
        return Some(Sid::Index(u32_at(octets, 0)));
    }
    if form == mask && octets.len() == 3 {
        return Some(Sid::Label(u24_at(octets, 0) & LABEL_BITS));
    }
    None
}

/// How many octets flags, one more octet and the SID have.
pub(crate) fn sid_length(sid: Sid) -> u128
    ensures is { result ≡ 2 + length (sid_text sid) }
    ensures small { result ≤ 6 }
{
    match sid {
        Sid::Index(_) => 6,
        Sid::Label(_) => 5,
    }
}

/// Whether the SID has the form that the flags tell, and fits it. The mask has the V and the L flag.
pub(crate) fn fits_sid(mask: u8, flags: u8, sid: Sid) -> bool
    ensures { IsTrue result ↔ FitsSid mask flags sid }
{
    match sid {
        Sid::Index(_) => flags & mask == 0,
        Sid::Label(label) => flags & mask == mask && label <= LABEL_BITS,
    }
}

/// Appends a sub-TLV of flags, one more octet and a SID; an error leaves the octets as they were.
pub(crate) fn write_sid(
    kind: u8,
    flags: u8,
    second: u8,
    sid: Sid,
    out: &mut Vec<u8>,
) -> Result<(), AllocError>
    requires { FitsOctets sid }
    ensures ok { OnOk result
        (out.new.items ≡ out.old.items
        ++ tlv_text (record { kind = kind; value = flags ∷ second ∷ sid_text sid })) }
    ensures err { OnErr result (out.new.items ≡ out.old.items) }
{
    match sid {
        Sid::Index(index) => {
            let mut octets = [kind, 6, flags, second, 0, 0, 0, 0];
            BigEndian::write_u32(&mut octets[4..], index);
            out.extend_from_slice(&octets)
        }
        Sid::Label(label) => {
            let mut octets = [kind, 5, flags, second, 0, 0, 0];
            BigEndian::write_u24(&mut octets[4..], label);
            out.extend_from_slice(&octets)
        }
    }
}
