//! The source and the sink in memory on their lists.
ghost use Rattle.std.specs.Prelude.{◌<◌, length};

use sr_base::{MemorySink, MemorySource, Sink, SinkFault, Source};
use std::alloc::{AllocError, Global};
use std::process::Abort;

/// A source of ten letters, with three pieces and two calls that fail.
fn listed_source(alloc: Global) -> Result<MemorySource, AllocError> {
    let pieces = Vec::from_slice(alloc, &[2usize, 0, 9])?;
    let failing = Vec::from_slice(alloc, &[2u64, 4])?;
    let bytes = Vec::from_slice(alloc, b"abcdefghij")?;
    Ok(MemorySource::new(bytes, pieces, failing))
}

/// A read gives that many bytes, which begin thus, or fails.
fn expect_read(
    rt: &impl Abort,
    source: &mut MemorySource,
    buf: &mut [u8],
    count: Option<usize>,
    given: &[u8],
)
    requires { 0 < length buf.old }
{
    assert_eq!(rt; source.read(buf).ok(), count);
    assert!(rt; buf.starts_with(given));
}

#[test]
fn a_source_gives_its_pieces_and_fails_where_listed(rt: HostRuntime) -> Result<(), AllocError> {
    let mut source = listed_source(rt.alloc())?;
    let mut buf = [0u8; 4];
    let gives: [(Option<usize>, &[u8]); 7] = [
        (Some(2), b"ab"),
        (Some(1), b"c"),
        (None, b""),
        (Some(4), b"defg"),
        (None, b""),
        (Some(3), b"hij"),
        (Some(0), b""),
    ];
    for (count, given) in gives {
        expect_read(&rt, &mut source, &mut buf, count, given);
    }
    assert_eq!(rt; source.calls(), 7);
    drop(source);
    Ok(())
}

/// A write takes that many bytes.
fn expect_write(rt: &impl Abort, sink: &mut MemorySink, piece: &[u8], count: usize)
    requires { 0 < length piece.now }
{
    assert_eq!(rt; sink.write(piece).ok(), Some(count));
}

/// The second of three writes fails, and appends nothing.
fn check_writes(rt: &impl Abort, sink: &mut MemorySink) {
    expect_write(rt, sink, b"abc", 3);
    assert!(rt; matches!(sink.write(b"de"), Err(SinkFault::Failed)));
    expect_write(rt, sink, b"fg", 2);
}

#[test]
fn a_sink_takes_pieces_whole_and_fails_where_listed(rt: HostRuntime) -> Result<(), AllocError> {
    let alloc = rt.alloc();
    let mut sink = MemorySink::new(alloc, Vec::from_slice(alloc, &[1u64])?);
    check_writes(&rt, &mut sink);
    assert_eq!(rt; sink.bytes(), b"abcfg".as_slice());
    assert_eq!(rt; sink.calls(), 3);
    drop(sink);
    Ok(())
}
