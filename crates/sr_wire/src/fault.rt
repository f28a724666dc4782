//! What is wrong with a malformed PDU.

ghost use Rattle.std.specs.Prelude.{◌≡◌};

use thiserror::Error;

/// A check that a PDU may fail. The checks stand in their order.
#[derive(Clone, Copy, Debug, PartialEq, Eq)]
pub enum Check {
    /// The octets are no whole header.
    HeaderOctets,
    /// The first octet isn't that of IS-IS (ISO 10589, 9.9).
    Discriminator,
    /// The header's own length isn't 27.
    HeaderLength,
    /// One of the two version octets isn't 1.
    Version,
    /// The length of system ids is neither 6 nor 0, which stands for 6.
    IdLength,
    /// The PDU isn't a level 2 link-state PDU.
    PduType,
    /// The PDU length is below the header's, or above the number of octets.
    PduLength,
    /// A TLV passes the end of the PDU.
    TlvExtent,
    /// A part of a TLV's value passes the end of what holds it.
    FieldExtent,
}

impl Check {
    ghost use Rattle.sr_wire.specs.Fault.{check_number};

    /// The number by which the check is known, from 1.
    pub fn number(self) -> u8
        ensures { result ≡ check_number self }
    {
        match self {
            Check::HeaderOctets => 1,
            Check::Discriminator => 2,
            Check::HeaderLength => 3,
            Check::Version => 4,
            Check::IdLength => 5,
            Check::PduType => 6,
            Check::PduLength => 7,
            Check::TlvExtent => 8,
            Check::FieldExtent => 9,
        }
    }
}

/// The first check that the octets fail, and the octet at which they do.
#[derive(Clone, Copy, Debug, PartialEq, Eq, Error)]
#[error("malformed at octet {offset}")]
pub struct Malformed {
    pub offset: usize,
    pub check: Check,
}

impl Malformed {
    /// The octets fail this check at this octet.
    pub fn at(offset: usize, check: Check) -> Malformed
        ensures { result ≡ record { offset = offset; check = check } }
    {
        Malformed { offset, check }
    }
}
