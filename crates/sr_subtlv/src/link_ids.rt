//! Link identifiers (RFC 5307, 1.1): read, written, and what they hold.

ghost use Rattle.std.specs.Prelude.{◌≡◌, ◌↔◌, ◌<◌, ◌^◌};
ghost use Rattle.sr_subtlv.specs.declared.link_ids.LinkIds.{LinkIds};
ghost use Rattle.sr_subtlv.specs.LinkIds.{AreIds, ids_value};

use byteorder::{BigEndian, ByteOrder};
use sr_wire::SubKind;
use sr_wire::octets::u32_at;
use sr_wire::registry::LINK_IDS;
use std::alloc::{AllocError, Global};

/// The identifiers of a link at both its ends, the announcing end's first (RFC 5307, 1.1).
#[derive(Clone, Copy, Debug, PartialEq, Eq)]
pub struct LinkIds {
    pub local: u32,
    pub remote: u32,
}

impl SubKind<LinkIds> for LinkIds {
    ghost use Rattle.sr_subtlv.specs.LinkIds.{ids_sub};

    ghost sub = { ids_sub };

    ghost most = { 8 };

    fn kind() -> u8 {
        LINK_IDS
    }

    /// A value says nothing where it hasn't eight octets.
    fn read(_alloc: Global, value: &[u8]) -> Result<Option<LinkIds>, AllocError> {
        if value.len() == 8 {
            Ok(Some(LinkIds {
                local: u32_at(value, 0),
                remote: u32_at(value, 4),
            }))
        } else {
            Ok(None)
        }
    }

    fn length(_x: &LinkIds) -> u128 {
        8
    }

    fn write(x: &LinkIds, out: &mut Vec<u8>) -> Result<(), AllocError> {
        let mut octets = [LINK_IDS, 8, 0, 0, 0, 0, 0, 0, 0, 0];
        BigEndian::write_u32(&mut octets[2..], x.local);
        BigEndian::write_u32(&mut octets[6..], x.remote);
        out.extend_from_slice(&octets)
    }

    fn fits(_x: &LinkIds) -> bool {
        true
    }

    fn widths(x: &LinkIds) {
        let _local = x.local;
        let _remote = x.remote;
    }
}

/// What is written of link identifiers is read as those, and as no others.
pub fn ids_are_read_again()
    ensures { (given read : LinkIds) → given.local < 2 ^ 32 → given.remote < 2 ^ 32
        → (AreIds (ids_value given) read ↔ (read ≡ given)) }
{}
