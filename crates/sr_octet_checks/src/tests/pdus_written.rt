//! What is written of PDUs, and what has no spelling.

use super::fixtures::{ADJ_LABEL, PREFIX_INDEX, as_a_router_writes, id};
use sr_lsp::{
    Capability, Lsp, LspId, Part, Parts, Prefix, Reach, Risk, WriteFault, in_range, write_lsp,
};
use sr_model::Range;
use sr_seq::{Few, Seq};
use sr_subtlv::{AdjSid, LinkIds, Sid, SrCap};
use std::alloc::{AllocError, Global};
use std::process::Abort;
use std::test::Fail;

/// The first PDU of system 1, with these parts.
fn first_of(alloc: Global, parts: Vec<Part>) -> Result<Lsp, AllocError> {
    Ok(Lsp {
        lifetime: 1200,
        id: LspId {
            system: id(1),
            pseudonode: 0,
            fragment: 0,
        },
        sequence: 1,
        checksum: 0,
        flags: 3,
        parts: Parts::new(alloc, parts)?,
    })
}

/// A link of metric 1 to a system, with link identifiers and Adj-SIDs.
fn reach(neighbour: u8, link: u32, adj: Vec<AdjSid>) -> Part {
    Part::Reach(Reach {
        neighbour: id(u64::from(neighbour)),
        pseudonode: 0,
        metric: 1,
        ids: Some(LinkIds {
            local: link,
            remote: link,
        }),
        local: None,
        remote: None,
        adj: Few::new(adj),
    })
}

/// A router capability with one block of labels.
fn capability(alloc: Global) -> Result<Part, AllocError> {
    let block = Range {
        first: 16000,
        size: 8000,
    };
    Ok(Part::Capability(Capability {
        router: 0x0a00_0001,
        flags: 0,
        srgb: Some(SrCap {
            flags: 0x80,
            ranges: Seq::new(vec![in alloc; block]?),
        }),
        msd: Seq::new(Vec::new(alloc)),
    }))
}

/// A prefix of 32 bits with one Prefix-SID.
fn prefix(alloc: Global) -> Result<Part, AllocError> {
    Ok(Part::Prefix(Prefix {
        metric: 0,
        down: false,
        length: 32,
        prefix: 0x0a00_0001,
        sids: Few::new(vec![in alloc; PREFIX_INDEX]?),
    }))
}

/// What router 1 of a ring announces, in its one spelling.
const WRITTEN: [u8; 125] = [
    0x83, 0x1b, 0x01, 0x00, 0x14, 0x01, 0x00, 0x00, 0x00, 0x7d, 0x04, 0xb0, // to the lifetime
    0x00, 0x00, 0x00, 0x00, 0x00, 0x01, 0x00, 0x00, 0x00, 0x00, 0x00, 0x01, 0x00, 0x00, 0x03, //
    0xf2, 0x10, 0x0a, 0x00, 0x00, 0x01, 0x00, // the router capability
    0x02, 0x09, 0x80, 0x00, 0x1f, 0x40, 0x01, 0x03, 0x00, 0x3e, 0x80, // SR-Capabilities
    0x87, 0x12, 0x00, 0x00, 0x00, 0x00, 0x60, 0x0a, 0x00, 0x00, 0x01, // a prefix
    0x08, 0x03, 0x06, 0x40, 0x00, 0x00, 0x00, 0x00, 0x01, // its Prefix-SID
    0x16, 0x1c, 0x00, 0x00, 0x00, 0x00, 0x00, 0x02, 0x00, 0x00, 0x00, 0x01, 0x11, // an entry
    0x04, 0x08, 0x00, 0x00, 0x00, 0x01, 0x00, 0x00, 0x00, 0x01, // its link identifiers
    0x1f, 0x05, 0x30, 0x00, 0x00, 0x5d, 0xc1, // its Adj-SID
    0x16, 0x1c, 0x00, 0x00, 0x00, 0x00, 0x00, 0x04, 0x00, 0x00, 0x00, 0x01, 0x11, // another
    0x04, 0x08, 0x00, 0x00, 0x00, 0x04, 0x00, 0x00, 0x00, 0x04, //
    0x1f, 0x05, 0x30, 0x00, 0x00, 0x5d, 0xc4, //
];

/// What router 1 of a ring announces.
fn ring(alloc: Global) -> Result<Lsp, AllocError> {
    let other = AdjSid {
        sid: Sid::Label(24004),
        ..ADJ_LABEL
    };
    let mut parts = Vec::new(alloc);
    parts.push(capability(alloc)?)?;
    parts.push(prefix(alloc)?)?;
    parts.push(reach(2, 1, vec![in alloc; ADJ_LABEL]?))?;
    parts.push(reach(4, 4, vec![in alloc; other]?))?;
    first_of(alloc, parts)
}

/// The PDU is written as these octets.
fn check_written(rt: &impl Abort, alloc: Global, lsp: &Lsp, wanted: &[u8]) -> Result<(), Fail> {
    assert!(rt; in_range(lsp));
    let octets = write_lsp(alloc, lsp)?;
    assert_eq!(rt; octets.as_slice(), wanted);
    Ok(())
}

#[test]
fn parts_in_their_order(rt: HostRuntime) -> Result<(), Fail> {
    let lsp = ring(rt.alloc())?;
    check_written(&rt, rt.alloc(), &lsp, &WRITTEN)
}

/// What a router wrote, in its one spelling: without the parts outside the profile.
const WRITTEN_AGAIN: [u8; 101] = [
    0x83, 0x1b, 0x01, 0x00, 0x14, 0x01, 0x00, 0x00, 0x00, 0x65, 0x04, 0xb0, // to the lifetime
    0x00, 0x00, 0x00, 0x00, 0x00, 0x01, 0x00, 0x00, 0x00, 0x00, 0x00, 0x01, 0x00, 0x00, 0x03, //
    0xf2, 0x14, 0x0a, 0x00, 0x00, 0x01, 0x00, // the router capability
    0x02, 0x09, 0xc0, 0x00, 0x1f, 0x40, 0x01, 0x03, 0x00, 0x3e, 0x80, // SR-Capabilities
    0x17, 0x02, 0x01, 0x0a, // maximum SID depths
    0x16, 0x1e, 0x00, 0x00, 0x00, 0x00, 0x00, 0x02, 0x00, 0x00, 0x00, 0x0a, 0x13, // an entry
    0x06, 0x04, 0x0a, 0x01, 0x00, 0x01, 0x08, 0x04, 0x0a, 0x01, 0x00, 0x02, // its addresses
    0x1f, 0x05, 0x30, 0x00, 0x00, 0x5d, 0xc1, // its Adj-SID
    0x87, 0x12, 0x00, 0x00, 0x00, 0x00, 0x60, 0x0a, 0x00, 0x00, 0x01, // a prefix
    0x08, 0x03, 0x06, 0x40, 0x00, 0x00, 0x00, 0x00, 0x01, // its Prefix-SID
];

#[test]
fn written_again(rt: HostRuntime) -> Result<(), Fail> {
    let lsp = as_a_router_writes(rt.alloc())?;
    check_written(&rt, rt.alloc(), &lsp, &WRITTEN_AGAIN)
}

/// The part that is too long, or the length that is.
fn refusal(rt: &impl Abort, alloc: Global, lsp: &Lsp) -> (Option<usize>, Option<u128>) {
    assert!(rt; in_range(lsp));
    match write_lsp(alloc, lsp) {
        Err(WriteFault::PartTooLong { part }) => (Some(part), None),
        Err(WriteFault::PduTooLong { length }) => (None, Some(length)),
        _ => (None, None),
    }
}

/// A PDU with one part, a link with 40 Adj-SIDs.
fn wide(alloc: Global) -> Result<Lsp, AllocError> {
    let link = reach(2, 1, vec![in alloc; ADJ_LABEL; 40]?);
    first_of(alloc, vec![in alloc; link]?)
}

#[test]
fn a_part_is_too_long(rt: HostRuntime) -> Result<(), Fail> {
    let lsp = wide(rt.alloc())?;
    assert_eq!(rt; refusal(&rt, rt.alloc(), &lsp), (Some(0), None));
    Ok(())
}

/// A PDU with 258 parts on shared risks, each of 252 octets.
fn long(alloc: Global) -> Result<Lsp, AllocError> {
    let mut parts = Vec::new(alloc);
    for _ in 0..258 {
        parts.push(Part::Risk(Risk {
            neighbour: id(2),
            pseudonode: 0,
            numbered: true,
            local: 0x0a01_0001,
            remote: 0x0a01_0002,
            groups: Few::new(vec![in alloc; 7; 59]?),
        }))?;
    }
    first_of(alloc, parts)
}

#[test]
fn a_pdu_is_too_long(rt: HostRuntime) -> Result<(), Fail> {
    let lsp = long(rt.alloc())?;
    assert_eq!(rt; refusal(&rt, rt.alloc(), &lsp), (None, Some(65559)));
    Ok(())
}
