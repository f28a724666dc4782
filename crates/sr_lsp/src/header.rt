//! The header of a link-state PDU.

ghost use Rattle.std.specs.Prelude.{◌≡◌, ◌≤◌, length, nat_le, ◌==◌, ◌||◌, ◌&&◌, IfOk, IfErr};

use crate::octets::system_id_at;
use sr_model::SystemId;
use sr_wire::octets::{u16_at, u32_at};
use sr_wire::{Check, Malformed};

/// The octets of a header.
pub(crate) const HEADER_OCTETS: usize = 27;

/// The first octet of an IS-IS PDU (ISO 10589, 9.9).
const DISCRIMINATOR: u8 = 0x83;

/// The version in the octets 2 and 5.
const VERSION: u8 = 1;

/// The bits of the PDU type in octet 4, above which three are reserved.
const PDU_TYPE: u8 = 0x1f;

/// The type of a level 2 link-state PDU.
const LEVEL_2_LSP: u8 = 20;

/// The header of a link-state PDU (ISO 10589, 9.8 and 9.9). `pdu_length` is the length of the whole PDU in octets, and
/// `lifetime` is in seconds.
#[derive(Clone, Copy, Debug, PartialEq, Eq)]
pub struct Header {
    pub pdu_length: u16,
    pub lifetime: u16,
    pub system: SystemId,
    pub pseudonode: u8,
    pub fragment: u8,
    pub sequence: u32,
    pub checksum: u16,
    pub flags: u8,
}

impl Header {
    ghost use Rattle.sr_lsp.specs.Header.{IsHeader, header_fault, header_of};

    /// The header at the front of the octets, which hold at least its PDU length, or the first check that they fail.
    pub fn read(octets: &[u8]) -> Result<Header, Malformed>
        ensures ok { IfOk result (λ header. IsHeader octets.now header) }
        ensures holds { IfOk result
            (λ header. (27 ≤ header.pdu_length) × (header.pdu_length ≤ length octets.now)) }
        ensures malformed { IfErr result (λ fault. header_fault octets.now ≡ Some fault) }
    {
        if octets.len() < HEADER_OCTETS {
            return Err(Malformed::at(octets.len(), Check::HeaderOctets));
        }
        if octets[0] != DISCRIMINATOR {
            return Err(Malformed::at(0, Check::Discriminator));
        }
        if usize::from(octets[1]) != HEADER_OCTETS {
            return Err(Malformed::at(1, Check::HeaderLength));
        }
        if octets[2] != VERSION {
            return Err(Malformed::at(2, Check::Version));
        }
        if octets[5] != VERSION {
            return Err(Malformed::at(5, Check::Version));
        }
        if !is_id_length(octets[3]) {
            return Err(Malformed::at(3, Check::IdLength));
        }
        if octets[4] & PDU_TYPE != LEVEL_2_LSP {
            return Err(Malformed::at(4, Check::PduType));
        }
        let pdu_length = usize::from(u16_at(octets, 8));
        if !is_pdu_length(pdu_length, octets.len()) {
            return Err(Malformed::at(8, Check::PduLength));
        }
        Ok(Header::fields(octets))
    }

    /// The fields of a header.
    fn fields(octets: &[u8]) -> Header
        requires { 27 ≤ length octets.now }
        ensures { result ≡ header_of octets.now }
    {
        Header {
            pdu_length: u16_at(octets, 8),
            lifetime: u16_at(octets, 10),
            system: system_id_at(octets, 12),
            pseudonode: octets[18],
            fragment: octets[19],
            sequence: u32_at(octets, 20),
            checksum: u16_at(octets, 24),
            flags: octets[26],
        }
    }
}

/// Whether this is how long system ids are: 6 octets, for which 0 stands too.
fn is_id_length(octet: u8) -> bool
    ensures { result ≡ ((octet == 0) || (octet == 6)) }
{
    octet == 0 || octet == 6
}

/// Whether a PDU of `length` octets has a whole header, and stands in the `given` octets.
fn is_pdu_length(length: usize, given: usize) -> bool
    ensures { result ≡ (nat_le 27 length && nat_le length given) }
{
    HEADER_OCTETS <= length && length <= given
}
