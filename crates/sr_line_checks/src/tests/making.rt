//! Made scripts, against values from outside.
use sr_base::{MemorySink, SteadySink};
use sr_engine::End;
use sr_lsp::{Lsp, PartRef, read_lsp};
use sr_make::make;
use std::alloc::{AllocError, Global};
use std::process::Abort;
use std::test::Fail;

/// The script of three nodes by draws from 0. The first draws are 15470, 18256, 53708, 43769, 25170 and 40750, so that
/// the pairs from 1 to 2, from 2 to 3 and from 3 to 1 have the metrics 11, 9 and 11 and the groups 1, 2 and 7.
const THREE: &[u8] = b"\
lsp 831b01001401000000a904b0000000000001000000000001000003f2100a00000100020980001f40010300\
3e80871200000000600a000001080306400000000001161c0000000000020000000b1104080000000100000001\
1f053000005dc1161c0000000000030000000b11040800000003000000031f053000005dc38a14000000000002\
00000000000100000001000000018a140000000000030000000000030000000300000007\n\
lsp 831b01001401000000a904b0000000000002000000000001000003f2100a00000200020980001f40010300\
3e80871200000000600a000002080306400000000002161c0000000000010000000b1104080000000100000001\
1f053000005dc1161c0000000000030000000911040800000002000000021f053000005dc28a14000000000001\
00000000000100000001000000018a140000000000030000000000020000000200000002\n\
lsp 831b01001401000000a904b0000000000003000000000001000003f2100a00000300020980001f40010300\
3e80871200000000600a000003080306600000000003161c000000000002000000091104080000000200000002\
1f053000005dc2161c0000000000010000000b11040800000003000000031f053000005dc38a14000000000002\
00000000000200000002000000028a140000000000010000000000030000000300000007\n\
commit\n\
audit\n\
cost 0000.0000.0001 0000.0000.0002 1 21\n\
commit\n\
audit\n\
down 0000.0000.0001 0000.0000.0002 1\n\
commit\n\
audit\n\
show\n";

#[test]
fn three_nodes(rt: HostRuntime) {
    let mut sink = MemorySink::new(rt.alloc(), Vec::new(rt.alloc()));
    assert!(rt; matches!(make(rt.alloc(), 3, 0, &mut sink), End::Done(false)));
    assert_eq!(rt; sink.bytes(), THREE);
}

/// A link in a made script: the nodes where it begins and ends, and the number of its pair.
#[derive(Clone, Copy, PartialEq, Eq)]
struct Told {
    from: u64,
    to: u64,
    pair: u32,
}

/// The PDU of a line.
fn lsp_of(alloc: Global, digits: &str) -> Result<Lsp, Fail> {
    let octets = hex::decode(alloc, digits.as_bytes())?;
    Ok(read_lsp(alloc, &octets)?)
}

/// Appends the links that the PDU announces.
fn push_links(lsp: &Lsp, told: &mut Vec<Told>) -> Result<(), Fail> {
    for at in 0..lsp.parts.count() {
        if let PartRef::Reach(reach) = lsp.parts.at(at) {
            told.push(Told {
                from: lsp.id.system.value(),
                to: reach.neighbour.value(),
                pair: reach.ids.ok_or("no identifiers")?.local,
            })?;
        }
    }
    Ok(())
}

/// The links of a script.
fn links_of(alloc: Global, script: &[u8]) -> Result<Vec<Told>, Fail> {
    let mut told = Vec::new(alloc);
    for line in str::from_utf8(script)?.lines() {
        if let Some(digits) = line.strip_prefix("lsp ") {
            let lsp = lsp_of(alloc, digits)?;
            let pushed = push_links(&lsp, &mut told);
            drop(lsp);
            pushed?;
        }
    }
    Ok(told)
}

/// The links of the script of eight nodes by draws from 0.
fn links_of_eight(rt: &impl Abort, alloc: Global) -> Result<Vec<Told>, Fail> {
    let mut sink = SteadySink::new(alloc);
    assert!(rt; matches!(make(alloc, 8, 0, &mut sink), End::Done(false)));
    let told = links_of(alloc, sink.bytes());
    drop(sink);
    told
}

/// The link is told.
fn expect_told(rt: &impl Abort, told: &[Told], from: u64, to: u64, pair: u32) {
    assert!(rt; told.contains(&Told { from, to, pair }), "pair {pair}");
}

// Each pair is told by both of its nodes, with its number among the pairs.
#[test]
fn chords_of_eight_nodes(rt: HostRuntime) -> Result<(), Fail> {
    let told = links_of_eight(&rt, rt.alloc())?;
    let expected = [
        (1, 2),
        (2, 3),
        (3, 4),
        (4, 5),
        (5, 6),
        (6, 7),
        (7, 8),
        (8, 1),
        (1, 5),
        (4, 8),
    ];
    for ((from, to), pair) in expected.into_iter().zip(1..) {
        expect_told(&rt, &told, from, to, pair);
        expect_told(&rt, &told, to, from, pair);
    }
    assert_eq!(rt; told.len(), 20);
    Ok(())
}

#[test]
fn a_sink_that_fails_at_once(rt: HostRuntime) -> Result<(), AllocError> {
    let mut sink = MemorySink::new(rt.alloc(), vec![in rt.alloc(); 0; 1]?);
    assert!(rt; matches!(make(rt.alloc(), 256, 7, &mut sink), End::WriteFailed));
    assert_eq!(rt; sink.bytes(), b"".as_slice());
    Ok(())
}
