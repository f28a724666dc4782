//! Prefix-SIDs (RFC 8667, 2.1): read, written, and what they hold.

ghost use Rattle.std.specs.Prelude.{◌≡◌, ◌↔◌};
ghost use Rattle.sr_subtlv.specs.declared.prefix_sid.PrefixSid.{PrefixSid};
ghost use Rattle.sr_subtlv.specs.PrefixSid.{FitsPrefixSid, IsPrefixSid, prefix_sid_value};

use crate::sid::{Sid, fits_sid, read_sid, sid_length, write_sid};
use sr_wire::SubKind;
use sr_wire::registry::{PREFIX_SID, PREFIX_SID_FORM};
use std::alloc::{AllocError, Global};

/// The SID of a prefix, for an algorithm (RFC 8667, 2.1).
#[derive(Clone, Copy, Debug, PartialEq, Eq)]
pub struct PrefixSid {
    pub flags: u8,
    pub algorithm: u8,
    pub sid: Sid,
}

impl SubKind<PrefixSid> for PrefixSid {
    ghost use Rattle.sr_subtlv.specs.PrefixSid.{prefix_sid_sub};

    ghost sub = { prefix_sid_sub };

    ghost most = { 6 };

    fn kind() -> u8 {
        PREFIX_SID
    }

    /// A value says nothing where it is too short, or where the SID hasn't the form that the V and L flags tell.
    fn read(_alloc: Global, value: &[u8]) -> Result<Option<PrefixSid>, AllocError> {
        if value.len() < 2 {
            return Ok(None);
        }
        match read_sid(PREFIX_SID_FORM, value[0], &value[2..]) {
            Some(sid) => Ok(Some(PrefixSid {
                flags: value[0],
                algorithm: value[1],
                sid,
            })),
            None => Ok(None),
        }
    }

    fn length(x: &PrefixSid) -> u128 {
        sid_length(x.sid)
    }

    fn write(x: &PrefixSid, out: &mut Vec<u8>) -> Result<(), AllocError> {
        write_sid(PREFIX_SID, x.flags, x.algorithm, x.sid, out)
    }

    fn fits(x: &PrefixSid) -> bool {
        fits_sid(PREFIX_SID_FORM, x.flags, x.sid)
    }

    fn widths(_x: &PrefixSid) {}
}

/// What is written of a Prefix-SID is read as that Prefix-SID, and as no other.
pub fn prefix_sid_is_read_again()
    ensures { (given read : PrefixSid) → FitsPrefixSid given
        → (IsPrefixSid (prefix_sid_value given) read ↔ (read ≡ given)) }
{}
