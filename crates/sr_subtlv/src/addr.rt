//! Interface addresses (RFC 5305, 3.2 and 3.3): the own interface's, and the neighbour's.

ghost use Rattle.std.specs.Prelude.{◌≡◌, ◌↔◌, ℕ, ◌<◌, ◌^◌, ◌++◌, MatchOption, OnErr, OnOk};
ghost use Rattle.byteorder.specs.Endian.{big_bytes};
ghost use Rattle.sr_wire.specs.Fields.{sub_text};
ghost use Rattle.sr_subtlv.specs.Addr.{IsAddr, addr_sub};

use byteorder::{BigEndian, ByteOrder};
use sr_wire::SubKind;
use sr_wire::octets::u32_at;
use sr_wire::registry::{NEIGHBOUR_ADDR, OWN_ADDR};
use std::alloc::{AllocError, Global};

/// The sub-TLV of the own interface's address (RFC 5305, 3.2).
pub struct OwnAddr;

/// The sub-TLV of the neighbour's address (RFC 5305, 3.3).
pub struct NeighbourAddr;

/// How many octets an address has.
const ADDR: u8 = 4;

/// The address of a value; a value says nothing where it hasn't four octets.
fn read_addr(value: &[u8]) -> Option<u32>
    ensures { MatchOption result ((addr : ℕ) → IsAddr value.now addr → ⊥) (IsAddr value.now) }
{
    if value.len() == 4 {
        Some(u32_at(value, 0))
    } else {
        None
    }
}

/// Appends a sub-TLV of this type that holds the address; an error leaves the octets as they were.
fn write_addr(kind: u8, addr: u32, out: &mut Vec<u8>) -> Result<(), AllocError>
    ensures ok { OnOk result (out.new.items ≡ out.old.items ++ sub_text (addr_sub kind) addr) }
    ensures err { OnErr result (out.new.items ≡ out.old.items) }
{
    let mut octets = [kind, ADDR, 0, 0, 0, 0];
    BigEndian::write_u32(&mut octets[2..], addr);
    out.extend_from_slice(&octets)
}

impl SubKind<u32> for OwnAddr {
    ghost use Rattle.sr_subtlv.specs.Addr.{own_addr_sub};

    ghost sub = { own_addr_sub };

    ghost most = { 4 };

    fn kind() -> u8 {
        OWN_ADDR
    }

    fn read(_alloc: Global, value: &[u8]) -> Result<Option<u32>, AllocError> {
        Ok(read_addr(value))
    }

    fn length(_x: &u32) -> u128 {
        u128::from(ADDR)
    }

    fn write(x: &u32, out: &mut Vec<u8>) -> Result<(), AllocError> {
        write_addr(OWN_ADDR, *x, out)
    }

    fn fits(_x: &u32) -> bool {
        true
    }

    fn widths(x: &u32) {
        let _addr = *x;
    }
}

impl SubKind<u32> for NeighbourAddr {
    ghost use Rattle.sr_subtlv.specs.Addr.{neighbour_addr_sub};

    ghost sub = { neighbour_addr_sub };

    ghost most = { 4 };

    fn kind() -> u8 {
        NEIGHBOUR_ADDR
    }

    fn read(_alloc: Global, value: &[u8]) -> Result<Option<u32>, AllocError> {
        Ok(read_addr(value))
    }

    fn length(_x: &u32) -> u128 {
        u128::from(ADDR)
    }

    fn write(x: &u32, out: &mut Vec<u8>) -> Result<(), AllocError> {
        write_addr(NEIGHBOUR_ADDR, *x, out)
    }

    fn fits(_x: &u32) -> bool {
        true
    }

    fn widths(x: &u32) {
        let _addr = *x;
    }
}

/// What is written of an address is read as that address, and as no other.
pub fn addr_is_read_again()
    ensures { (given read : ℕ) → given < 2 ^ 32
        → (IsAddr (big_bytes 4 given) read ↔ (read ≡ given)) }
{}
