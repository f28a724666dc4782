//! PDUs, names and values that several tests take.
ghost use Rattle.std.specs.Prelude.{◌≡◌, ◌<◌};

use sr_lsdb::Editor;
use sr_lsp::{Lsp, ReadFault, read_lsp};
use sr_model::{Ident, LinkKey, SystemId};
use sr_subtlv::{AdjSid, LinkIds, PrefixSid, Sid};
use std::alloc::{AllocError, Global};
use std::test::Fail;

/// What router 1 of a net of two sends first: the labels 16000 to 23999, and a link to router 2 of
/// metric 10.
pub const PDU: [u8; 58] = [
    0x83, 0x1b, 0x01, 0x00, 0x14, 0x01, 0x00, 0x00, // the fixed octets
    0x00, 0x3a, 0x04, 0xb0, // PDU length and lifetime
    0x00, 0x00, 0x00, 0x00, 0x00, 0x01, 0x00, 0x00, // system, pseudonode, fragment
    0x00, 0x00, 0x00, 0x01, 0x00, 0x00, 0x03, // sequence number, checksum, flags
    0xf2, 0x10, 0x0a, 0x00, 0x00, 0x01, 0x00, // TLV 242
    0x02, 0x09, 0x80, 0x00, 0x1f, 0x40, 0x01, 0x03, 0x00, 0x3e, 0x80, // its sub-TLV 2
    0x16, 0x0b, 0x00, 0x00, 0x00, 0x00, 0x00, 0x02, 0x00, 0x00, 0x00, 0x0a, 0x00, // TLV 22
];

/// What a router writes around the parts of the profile.
const AS_A_ROUTER_WRITES: [u8; 124] = [
    0x83, 0x1b, 0x01, 0x00, 0x14, 0x01, 0x00, 0x00, 0x00, 0x7c, 0x04, 0xb0, // to the lifetime
    0x00, 0x00, 0x00, 0x00, 0x00, 0x01, 0x00, 0x00, 0x00, 0x00, 0x00, 0x01, 0x00, 0x00, 0x03, //
    0x01, 0x04, 0x03, 0x49, 0x00, 0x01, // areas
    0x81, 0x01, 0xcc, // protocols
    0xc8, 0x02, 0x72, 0x31, // a TLV of an unknown type
    0x84, 0x04, 0x0a, 0x00, 0x00, 0x01, // the interface address
    0xf2, 0x18, 0x0a, 0x00, 0x00, 0x01, 0x00, // the router capability
    0x02, 0x09, 0xc0, 0x00, 0x1f, 0x40, 0x01, 0x03, 0x00, 0x3e, 0x80, // SR-Capabilities
    0x13, 0x02, 0x00, 0x01, // SR algorithms
    0x17, 0x02, 0x01, 0x0a, // maximum SID depths
    0x16, 0x1e, 0x00, 0x00, 0x00, 0x00, 0x00, 0x02, 0x00, 0x00, 0x00, 0x0a, 0x13, // an entry
    0x06, 0x04, 0x0a, 0x01, 0x00, 0x01, 0x08, 0x04, 0x0a, 0x01, 0x00, 0x02, // its addresses
    0x1f, 0x05, 0x30, 0x00, 0x00, 0x5d, 0xc1, // its Adj-SID
    0x87, 0x12, 0x00, 0x00, 0x00, 0x00, 0x60, 0x0a, 0x00, 0x00, 0x01, // a prefix
    0x08, 0x03, 0x06, 0x40, 0x00, 0x00, 0x00, 0x00, 0x01, // its Prefix-SID
];

/// The PDU that a router writes.
pub fn as_a_router_writes(alloc: Global) -> Result<Lsp, ReadFault> {
    read_lsp(alloc, &AS_A_ROUTER_WRITES)
}

/// An Adj-SID that is a label.
pub const ADJ_LABEL: AdjSid = AdjSid {
    flags: 0x30,
    weight: 0,
    sid: Sid::Label(24001),
};

/// An Adj-SID that is an index.
pub const ADJ_INDEX: AdjSid = AdjSid {
    flags: 0x04,
    weight: 3,
    sid: Sid::Index(7),
};

/// A Prefix-SID that is an index.
pub const PREFIX_INDEX: PrefixSid = PrefixSid {
    flags: 0x40,
    algorithm: 0,
    sid: Sid::Index(1),
};

/// Link identifiers.
pub const IDS: LinkIds = LinkIds {
    local: 1,
    remote: 4,
};

/// How many octets of the PDU stand before its TLVs.
const HEADER: usize = 27;

/// The octets of the PDU with others at some places.
pub fn changed(alloc: Global, changes: &[(usize, u8)]) -> Result<Vec<u8>, AllocError> {
    let mut octets = Vec::from_slice(alloc, &PDU)?;
    for &(at, octet) in changes {
        if let Some(place) = octets.get_mut(at) {
            *place = octet;
        }
    }
    Ok(octets)
}

/// The octets of what a router sends first, if these are its TLVs.
pub fn sent(alloc: Global, router: u8, tlvs: &[u8]) -> Result<Vec<u8>, Fail> {
    let whole = u8::try_from(HEADER + tlvs.len())?;
    let mut octets = changed(alloc, &[(9, whole), (17, router)])?;
    octets.truncate(HEADER);
    octets.extend_from_slice(tlvs)?;
    Ok(octets)
}

/// The PDU of these octets is staged.
fn stage(alloc: Global, editor: &mut Editor, octets: &[u8]) -> Result<(), Fail> {
    editor.stage_lsp(read_lsp(alloc, octets)?)?;
    Ok(())
}

/// The facts that two PDUs announce are accepted.
pub fn accept(alloc: Global, editor: &mut Editor, first: &[u8], second: &[u8]) -> Result<(), Fail> {
    stage(alloc, editor, first)?;
    stage(alloc, editor, second)?;
    editor.accept();
    Ok(())
}

/// The system id of a small number.
pub fn id(value: u64) -> SystemId
    requires { value < 256 }
    ensures { result ≡ value }
{
    SystemId::new(value).unwrap()
}

/// The name of a link between systems of small numbers.
pub fn key(from: u64, to: u64, ident: Ident) -> LinkKey
    requires from { from < 256 }
    requires to { to < 256 }
{
    LinkKey {
        from: id(from),
        to: id(to),
        ident,
    }
}
