//! Sources and sinks that fail.

use super::{check_end, check_run, run};
use sr_base::{MemorySink, MemorySource, Runtime, Source};
use std::alloc::{AllocError, AllocGlobal, Global};
use std::process::Abort;

/// Two routers, a commit and a distance.
const TWO_NODES: &[u8] =
    b"lsp 831b010014010000003a04b0000000000001000000000001000003f2100a00000100020980001f400103003e80160b0000000000020000000a00\n\
    lsp 831b010014010000003a04b0000000000002000000000001000003f2100a00000200020980001f400103003e80160b0000000000010000000a00\n\
    commit\n\
    dist 0000.0000.0001 0000.0000.0002\n";

/// Two commits: 14 bytes, and a line feed at bytes 6 and 13.
const COMMITS: &[u8] = b"commit\ncommit\n";

/// What answers the first of them.
const FIRST: &[u8] = b"version 1 nodes 0 links 0\n";

/// A source of these bytes, of which each of that many reads gives one, and the next the rest. It fails at the listed
/// calls.
pub fn bytewise(
    alloc: Global,
    script: &[u8],
    reads: usize,
    failing: &[u64],
) -> Result<MemorySource, AllocError> {
    let pieces = vec![in alloc; 1usize; reads]?;
    let failing = Vec::from_slice(alloc, failing)?;
    let bytes = Vec::from_slice(alloc, script)?;
    Ok(MemorySource::new(bytes, pieces, failing))
}

/// A script, how many of its bytes are given before a read fails, and the answers to the lines that end within them. Each
/// of the two routers' lines has 121 bytes with its line feed.
const READS: [(&str, &[u8], usize, &[u8]); 7] = [
    ("at the first byte", COMMITS, 0, b""),
    ("at the first line feed", COMMITS, 6, b""),
    ("behind a line", COMMITS, 7, FIRST),
    ("at the last line feed", COMMITS, 13, FIRST),
    ("at the first byte of a PDU", TWO_NODES, 0, b""),
    ("at a PDU's line feed", TWO_NODES, 241, b"staged 1\n"),
    ("behind a PDU", TWO_NODES, 242, b"staged 1\nstaged 2\n"),
];

#[test]
fn a_read_fails(rt: HostRuntime) -> Result<(), AllocError> {
    for (name, script, given, answers) in READS {
        let mut source = bytewise(rt.alloc(), script, given, &[given as u64])?;
        let checked = check_run(&rt, &mut source, (3, answers), name);
        drop(source);
        checked?;
    }
    Ok(())
}

/// Where this call of the sink fails, a run over the source ends with status 4, after these answers.
fn check_failed_write<R: AllocGlobal + Runtime + Abort + 'static>(
    rt: &R,
    source: &mut impl Source,
    call: u64,
    answers: &[u8],
    name: &str,
) -> Result<(), AllocError> {
    let mut sink = MemorySink::new(rt.alloc(), vec![in rt.alloc(); call; 1]?);
    let ended = run(rt, "run", source, &mut sink);
    let checked = check_end(rt, ended, sink.bytes(), (4, answers), name);
    drop(sink);
    checked
}

/// A script, how many of its reads give a byte before one gives the rest, the call of the sink that fails, and the answers
/// before. What answers the bytes of a read is written before the next one: where they are given one by one, a call of the
/// sink is made for each answer.
const WRITES: [(&str, &[u8], usize, u64, &[u8]); 4] = [
    ("at the first answer", COMMITS, COMMITS.len(), 0, b""),
    ("at the second answer", COMMITS, COMMITS.len(), 1, FIRST),
    (
        "at the second PDU's answer",
        TWO_NODES,
        TWO_NODES.len(),
        1,
        b"staged 1\n",
    ),
    ("at the answers to all", TWO_NODES, 0, 0, b""),
];

#[test]
fn a_write_fails(rt: HostRuntime) -> Result<(), AllocError> {
    for (name, script, reads, call, answers) in WRITES {
        let mut source = bytewise(rt.alloc(), script, reads, &[])?;
        let checked = check_failed_write(&rt, &mut source, call, answers, name);
        drop(source);
        checked?;
    }
    Ok(())
}
