//! What is read of PDUs, and what is refused.

use super::fixtures::{ADJ_LABEL, PDU, PREFIX_INDEX, as_a_router_writes, changed};
use sr_lsp::{Capability, Check, Lsp, Malformed, PartRef, Prefix, Reach, ReadFault, read_lsp};
use sr_subtlv::Msd;
use std::alloc::{AllocError, Global};
use std::process::Abort;
use std::test::Fail;

/// The offset and the number of the check that a PDU fails, if it fails one.
fn fault(alloc: Global, octets: &[u8]) -> Option<(usize, u8)> {
    match read_lsp(alloc, octets) {
        Ok(_) => None,
        Err(ReadFault::Malformed(malformed)) => {
            Some((malformed.offset, malformed.check.number()))
        }
        Err(ReadFault::Memory(_)) => Some((0, 0)),
    }
}

/// One changed octet, and the offset and the number of the check that the PDU then fails, if it
/// fails one.
const CHANGES: [(usize, u8, Option<(usize, u8)>); 20] = [
    (0, 0x82, Some((0, 2))),
    (1, 0x1a, Some((1, 3))),
    (2, 0x02, Some((2, 4))),
    (3, 0x06, None),
    (3, 0x07, Some((3, 5))),
    (4, 0x12, Some((4, 6))),
    (4, 0xf4, None),
    (5, 0x02, Some((5, 4))),
    (6, 0xff, None),
    (7, 0xff, None),
    (9, 0x3b, Some((8, 7))),
    (9, 0x39, Some((45, 8))),
    (27, 0xc8, None),
    (28, 0x03, Some((29, 9))),
    (28, 0x04, Some((33, 9))),
    (35, 0x08, Some((44, 9))),
    (35, 0x0a, Some((34, 9))),
    (41, 0x04, None),
    (46, 0x0a, Some((47, 9))),
    (57, 0x01, Some((47, 9))),
];

#[test]
fn one_octet_changed(rt: HostRuntime) -> Result<(), Fail> {
    let alloc = rt.alloc();
    for &(at, octet, expected) in &CHANGES {
        let octets = changed(alloc, &[(at, octet)])?;
        assert_eq!(rt; fault(alloc, &octets), expected, "octet {at} is {octet}");
    }
    Ok(())
}

#[test]
fn octets_cut_off(rt: HostRuntime) {
    for (length, expected) in [(58, None), (20, Some((20, 1))), (57, Some((8, 7)))] {
        assert_eq!(rt;
            fault(rt.alloc(), &PDU[..length]),
            expected,
            "{length} octets"
        );
    }
}

/// The check that a changed PDU with more octets behind it fails, if it fails one.
fn fault_behind(
    alloc: Global,
    changes: &[(usize, u8)],
    behind: &[u8],
) -> Result<Option<(usize, u8)>, AllocError> {
    let mut octets = changed(alloc, changes)?;
    octets.extend_from_slice(behind)?;
    Ok(fault(alloc, &octets))
}

#[test]
fn octets_behind(rt: HostRuntime) -> Result<(), Fail> {
    let alloc = rt.alloc();
    // Octets past the PDU length are left unread, whatever they are.
    let unread = fault_behind(alloc, &[], &[0xff, 0xff])?;
    // An unknown TLV is stepped over.
    let unknown = fault_behind(alloc, &[(9, 0x3e)], &[0xc8, 0x02, 0xff, 0xff])?;
    assert_eq!(rt; (unread, unknown), (None, None));
    Ok(())
}

#[test]
fn a_fault_is_told(rt: HostRuntime) -> Result<(), Fail> {
    let malformed = Malformed {
        offset: 8,
        check: Check::PduLength,
    };
    let shown = format!(in rt.alloc(); "{malformed}")?;
    assert_eq!(rt; shown.as_str(), "malformed at octet 8");
    Ok(())
}

/// The capability names the router and its depth.
fn check_capability(rt: &impl Abort, capability: &Capability) {
    assert_eq!(rt; capability.router, 0x0a00_0001);
    let msds = [Msd { kind: 1, value: 10 }];
    assert_eq!(rt; capability.msd.as_slice(), msds.as_slice());
}

/// The entry names the neighbour, with a metric and without identifiers.
fn check_neighbour(rt: &impl Abort, reach: &Reach) {
    assert_eq!(rt; (reach.neighbour.value(), reach.metric), (2, 10));
    assert_eq!(rt; reach.ids, None);
}

/// The entry names both addresses, and the Adj-SID.
fn check_addresses(rt: &impl Abort, reach: &Reach) {
    assert_eq!(rt;
        (reach.local, reach.remote),
        (Some(0x0a01_0001), Some(0x0a01_0002))
    );
    assert_eq!(rt; reach.adj.as_slice(), [ADJ_LABEL].as_slice());
}

/// The entry has a prefix of 32 bits, and the Prefix-SID.
fn check_prefix(rt: &impl Abort, prefix: &Prefix) {
    assert_eq!(rt;
        (prefix.metric, prefix.down, prefix.length, prefix.prefix),
        (0, false, 32, 0x0a00_0001)
    );
    assert_eq!(rt; prefix.sids.as_slice(), [PREFIX_INDEX].as_slice());
}

/// The PDU is live, and has a capability, an entry and a prefix.
fn check_parts(rt: &impl Abort, lsp: &Lsp) {
    assert_eq!(rt; (lsp.lifetime, lsp.parts.count()), (1200, 3));
    match (lsp.parts.at(0), lsp.parts.at(1), lsp.parts.at(2)) {
        (PartRef::Capability(capability), PartRef::Reach(reach), PartRef::Prefix(prefix)) => {
            check_capability(rt, capability);
            check_neighbour(rt, reach);
            check_addresses(rt, reach);
            check_prefix(rt, prefix);
        }
        _ => assert!(rt; false, "other parts"),
    }
}

#[test]
fn parts_as_a_router_writes_them(rt: HostRuntime) -> Result<(), Fail> {
    let lsp = as_a_router_writes(rt.alloc())?;
    check_parts(&rt, &lsp);
    Ok(())
}
