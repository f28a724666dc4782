//! Adj-SIDs (RFC 8667, 2.2.1): read, written, and what they hold.

ghost use Rattle.std.specs.Prelude.{◌≡◌, ◌↔◌};
ghost use Rattle.sr_subtlv.specs.declared.adj_sid.AdjSid.{AdjSid};
ghost use Rattle.sr_subtlv.specs.AdjSid.{FitsAdjSid, IsAdjSid, adj_sid_value};

use crate::sid::{Sid, fits_sid, read_sid, sid_length, write_sid};
use sr_wire::SubKind;
use sr_wire::registry::{ADJ_SID, ADJ_SID_FORM};
use std::alloc::{AllocError, Global};

/// The SID of an adjacency (RFC 8667, 2.2.1).
#[derive(Clone, Copy, Debug, PartialEq, Eq)]
pub struct AdjSid {
    pub flags: u8,
    pub weight: u8,
    pub sid: Sid,
}

impl SubKind<AdjSid> for AdjSid {
    ghost use Rattle.sr_subtlv.specs.AdjSid.{adj_sid_sub};

    ghost sub = { adj_sid_sub };

    ghost most = { 6 };

    fn kind() -> u8 {
        ADJ_SID
    }

    /// A value says nothing where it is too short, or where the SID hasn't the form that the V and L flags tell.
    fn read(_alloc: Global, value: &[u8]) -> Result<Option<AdjSid>, AllocError> {
        if value.len() < 2 {
            return Ok(None);
        }
        match read_sid(ADJ_SID_FORM, value[0], &value[2..]) {
            Some(sid) => Ok(Some(AdjSid {
                flags: value[0],
                weight: value[1],
                sid,
            })),
            None => Ok(None),
        }
    }

    fn length(x: &AdjSid) -> u128 {
        sid_length(x.sid)
    }

    fn write(x: &AdjSid, out: &mut Vec<u8>) -> Result<(), AllocError> {
        write_sid(ADJ_SID, x.flags, x.weight, x.sid, out)
    }

    fn fits(x: &AdjSid) -> bool {
        fits_sid(ADJ_SID_FORM, x.flags, x.sid)
    }

    fn widths(_x: &AdjSid) {}
}

/// What is written of an Adj-SID is read as that Adj-SID, and as no other.
pub fn adj_sid_is_read_again()
    ensures { (given read : AdjSid) → FitsAdjSid given
        → (IsAdjSid (adj_sid_value given) read ↔ (read ≡ given)) }
{}
