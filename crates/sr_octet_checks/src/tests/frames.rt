//! Places of TLVs in a run of octets.

use sr_wire::{Frame, Overrun, frame};
use std::test::Fail;

/// A sub-TLV 6 of four octets and an empty sub-TLV 4.
const RUN: [u8; 8] = [0x06, 0x04, 0x0a, 0x01, 0x00, 0x02, 0x04, 0x00];

const FIRST: Frame = Frame {
    kind: 6,
    from: 2,
    to: 6,
};

const SECOND: Frame = Frame {
    kind: 4,
    from: 8,
    to: 8,
};

#[test]
fn places(rt: HostRuntime) {
    for (run, at, want) in [
        (RUN.as_slice(), 0, Ok(FIRST)),
        (RUN.as_slice(), 6, Ok(SECOND)),
        (&RUN[..5], 0, Err(Overrun { offset: 0 })),
        (&RUN[..7], 6, Err(Overrun { offset: 6 })),
        (&RUN[..1], 0, Err(Overrun { offset: 0 })),
    ] {
        assert!(rt; at < run.len());
        assert_eq!(rt; frame(run, at), want);
    }
}

#[test]
fn an_overrun_is_told(rt: HostRuntime) -> Result<(), Fail> {
    let shown = format!(in rt.alloc(); "{}", Overrun { offset: 6 })?;
    assert_eq!(rt; shown.as_str(), "the TLV at octet 6 passes the end");
    Ok(())
}
