//! Sub-TLVs of each kind, and fields that they say.
ghost use Rattle.std.specs.Prelude.{◌≤◌, length};

use super::fixtures::{ADJ_INDEX, ADJ_LABEL, IDS, PREFIX_INDEX};
use sr_model::Range;
use sr_seq::{Few, Seq};
use sr_subtlv::{AdjSid, LinkIds, Msd, NeighbourAddr, OwnAddr, PrefixSid, Sid, SrCap};
use sr_wire::registry::LONGEST_VALUE;
use sr_wire::{SubKind, add_all, add_first, all_length, first_length, write_all_subs, write_first};
use std::alloc::{AllocError, Global};
use std::fmt::Debug;
use std::process::Abort;
use std::test::Fail;

/// The octets of each value say what stands beside them.
fn reads<X: Copy + Debug + PartialEq, K: SubKind<X>>(
    rt: &impl Abort,
    alloc: Global,
    values: &[(&[u8], Option<X>)],
) -> Result<(), Fail> {
    for &(value, want) in values {
        assert_eq!(rt; K::read(alloc, value)?, want, "{value:?}");
    }
    Ok(())
}

/// The value is written as these octets.
fn writes<X, K: SubKind<X>>(
    rt: &impl Abort,
    alloc: Global,
    value: &X,
    octets: &[u8],
) -> Result<(), Fail>
    requires fits { K.sub.fits value.now }
    requires short { length (K.sub.value value.now) ≤ LONGEST_VALUE }
{
    let mut out = Vec::new(alloc);
    K::write(value, &mut out)?;
    assert_eq!(rt; out.as_slice(), octets);
    Ok(())
}

#[test]
fn prefix_sids(rt: HostRuntime) -> Result<(), Fail> {
    let text = [0x03, 0x06, 0x40, 0x00, 0x00, 0x00, 0x00, 0x01];
    let label = PrefixSid {
        flags: 0x4c,
        algorithm: 1,
        sid: Sid::Label(16001),
    };
    // Too short, an index where V is set, a label with L clear.
    let values = [
        (&text[2..], Some(PREFIX_INDEX)),
        (&[0x40, 0x00, 0x00, 0x01], None),
        (&[0x48, 0x00, 0x00, 0x00, 0x00, 0x01], None),
        (&[0x48, 0x00, 0x00, 0x3e, 0x81], None),
        (&[0x4c, 0x01, 0x00, 0x3e, 0x81], Some(label)),
    ];
    reads::<PrefixSid, PrefixSid>(&rt, rt.alloc(), &values)?;
    writes::<PrefixSid, PrefixSid>(&rt, rt.alloc(), &PREFIX_INDEX, &text)
}

#[test]
fn adj_sids(rt: HostRuntime) -> Result<(), Fail> {
    let text = [0x1f, 0x05, 0x30, 0x00, 0x00, 0x5d, 0xc1];
    // The four upper bits of a label's octets are unused.
    let values = [
        (&text[2..], Some(ADJ_LABEL)),
        (&[0x30, 0x00, 0xf0, 0x5d, 0xc1], Some(ADJ_LABEL)),
        (&[0x20, 0x00, 0x00, 0x5d, 0xc1], None),
        (&[0x04, 0x03, 0x00, 0x00, 0x00, 0x07], Some(ADJ_INDEX)),
    ];
    reads::<AdjSid, AdjSid>(&rt, rt.alloc(), &values)?;
    writes::<AdjSid, AdjSid>(&rt, rt.alloc(), &ADJ_LABEL, &text)
}

#[test]
fn own_addresses(rt: HostRuntime) -> Result<(), Fail> {
    let text = [0x06, 0x04, 0x0a, 0x01, 0x00, 0x01];
    let values = [(&text[2..], Some(0x0a01_0001)), (&text[1..], None)];
    reads::<u32, OwnAddr>(&rt, rt.alloc(), &values)?;
    writes::<u32, OwnAddr>(&rt, rt.alloc(), &0x0a01_0001, &text)
}

#[test]
fn addresses_of_neighbours(rt: HostRuntime) -> Result<(), Fail> {
    let text = [0x08, 0x04, 0x0a, 0x01, 0x00, 0x02];
    let values = [(&text[2..], Some(0x0a01_0002))];
    reads::<u32, NeighbourAddr>(&rt, rt.alloc(), &values)?;
    writes::<u32, NeighbourAddr>(&rt, rt.alloc(), &0x0a01_0002, &text)
}

/// The sub-TLV of two link identifiers, twice.
const IDS_TWICE: [u8; 20] = [
    0x04, 0x08, 0x00, 0x00, 0x00, 0x01, 0x00, 0x00, 0x00, 0x04, // once
    0x04, 0x08, 0x00, 0x00, 0x00, 0x01, 0x00, 0x00, 0x00, 0x04, // and again
];

#[test]
fn identifiers(rt: HostRuntime) -> Result<(), Fail> {
    let text = &IDS_TWICE[..10];
    let values = [(&text[2..], Some(IDS)), (&text[1..], None)];
    reads::<LinkIds, LinkIds>(&rt, rt.alloc(), &values)?;
    writes::<LinkIds, LinkIds>(&rt, rt.alloc(), &IDS, text)
}

/// The octets of the value say these depths.
fn reads_depths(
    rt: &impl Abort,
    alloc: Global,
    value: &[u8],
    wanted: &[Msd],
) -> Result<(), AllocError> {
    match Msd::read(alloc, value)? {
        Some(msds) => assert_eq!(rt; msds.as_slice(), wanted, "{value:?}"),
        None => assert!(rt; false, "{value:?} says nothing"),
    }
    Ok(())
}

#[test]
fn depths(rt: HostRuntime) -> Result<(), Fail> {
    let alloc = rt.alloc();
    let text = [0x17, 0x04, 0x01, 0x0a, 0x02, 0x03];
    let msds = [Msd { kind: 1, value: 10 }, Msd { kind: 2, value: 3 }];
    reads_depths(&rt, alloc, &text[2..], &msds)?;
    reads_depths(&rt, alloc, &[], &[])?;
    assert!(rt; Msd::read(alloc, &text[3..])?.is_none());
    let written = Seq::new(Vec::from_slice(alloc, &msds)?);
    writes::<Seq<Msd>, Msd>(&rt, alloc, &written, &text)
}

/// The octets of the value say these flags and this range alone.
fn reads_range(
    rt: &impl Abort,
    alloc: Global,
    value: &[u8],
    flags: u8,
    range: Range,
) -> Result<(), AllocError> {
    match SrCap::read(alloc, value)? {
        Some(cap) => {
            assert_eq!(rt; cap.flags, flags);
            assert_eq!(rt; cap.ranges.as_slice(), [range].as_slice());
        }
        None => assert!(rt; false, "nothing is said"),
    }
    Ok(())
}

/// The octets of no value say anything.
fn reads_no_range(rt: &impl Abort, alloc: Global, values: &[&[u8]]) -> Result<(), AllocError> {
    for value in values {
        assert!(rt; SrCap::read(alloc, value)?.is_none(), "{value:?}");
    }
    Ok(())
}

#[test]
fn sr_capabilities(rt: HostRuntime) -> Result<(), Fail> {
    let alloc = rt.alloc();
    let text = [
        0x02, 0x09, 0xc0, 0x00, 0x1f, 0x40, 0x01, 0x03, 0x00, 0x3e, 0x80,
    ];
    let range = Range {
        first: 16000,
        size: 8000,
    };
    reads_range(&rt, alloc, &text[2..], 0xc0, range)?;
    // Flags alone, half a range, an index in place of a label, and a sub-TLV of another type.
    let values = [
        &text[2..3],
        &text[2..8],
        &[0xc0, 0x00, 0x1f, 0x40, 0x01, 0x04, 0x00, 0x00, 0x3e, 0x80],
        &[0xc0, 0x00, 0x1f, 0x40, 0x02, 0x03, 0x00, 0x3e, 0x80],
    ];
    reads_no_range(&rt, alloc, &values)?;
    let cap = SrCap {
        flags: 0xc0,
        ranges: Seq::new(vec![in alloc; range]?),
    };
    writes::<SrCap, SrCap>(&rt, alloc, &cap, &text)
}

/// What the octets of several sub-TLVs say: the first of a kind, and all of it.
fn fields(
    alloc: Global,
    subs: &[(u8, &[u8])],
    first: &mut Option<AdjSid>,
    all: &mut Few<AdjSid>,
) -> Result<(), AllocError> {
    for &(kind, value) in subs {
        add_first::<AdjSid, AdjSid>(alloc, first, kind, value)?;
        add_all::<AdjSid, AdjSid>(alloc, all, kind, value)?;
    }
    Ok(())
}

#[test]
fn fields_are_read(rt: HostRuntime) -> Result<(), Fail> {
    let alloc = rt.alloc();
    // One of another type, one of two octets, and two that say something.
    let subs = [
        (3, [0x30, 0x00, 0x00, 0x5d, 0xc2].as_slice()),
        (31, &[0x30, 0x00]),
        (31, &[0x30, 0x00, 0x00, 0x5d, 0xc1]),
        (31, &[0x04, 0x03, 0x00, 0x00, 0x00, 0x07]),
    ];
    let mut first = None;
    let mut all = Few::empty(alloc);
    fields(alloc, &subs, &mut first, &mut all)?;
    assert_eq!(rt; first, Some(ADJ_LABEL));
    assert_eq!(rt; all.as_slice(), [ADJ_LABEL, ADJ_INDEX].as_slice());
    Ok(())
}

/// A field that holds the identifiers is written as these octets.
fn writes_first(rt: &impl Abort, alloc: Global, octets: &[u8]) -> Result<(), AllocError> {
    let mut out = Vec::new(alloc);
    write_first::<LinkIds, LinkIds>(&Some(IDS), &mut out)?;
    assert_eq!(rt; out.as_slice(), octets);
    Ok(())
}

/// A field that holds the identifiers twice is written as these octets.
fn writes_all(rt: &impl Abort, alloc: Global, octets: &[u8]) -> Result<(), AllocError> {
    let mut out = Vec::new(alloc);
    write_all_subs::<LinkIds, LinkIds>(&[IDS, IDS], &mut out)?;
    assert_eq!(rt; out.as_slice(), octets);
    Ok(())
}

#[test]
fn fields_are_written(rt: HostRuntime) -> Result<(), Fail> {
    let text = IDS_TWICE.as_slice();
    writes_first(&rt, rt.alloc(), &text[..10])?;
    writes_all(&rt, rt.alloc(), text)?;
    assert_eq!(rt; first_length::<LinkIds, LinkIds>(&Some(IDS)), 10);
    assert_eq!(rt; all_length::<LinkIds, LinkIds>(&[IDS, IDS]), 20);
    Ok(())
}
