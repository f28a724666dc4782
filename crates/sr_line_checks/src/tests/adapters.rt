//! The adapters over a reader and a writer that fail in between.
ghost use Rattle.std.specs.Prelude.{◌<◌, length};

use sr_base::{Sink, SinkFault, Source, StdSink, StdSource};
use std::alloc::Global;
use std::cell::Cell;
use std::io;
use std::io::{Read, Write};
use std::process::Abort;

/// Gives the digits 0 to 9, three a call, and fails at its second call.
#[derive(Drop)]
struct Reader {
    at: usize,
    calls: u8,
}

impl Read for Reader {
    fn read(&mut self, buf: &mut [u8]) -> io::Result<usize> {
        self.calls = self.calls.saturating_add(1);
        if self.calls == 2 {
            return Err(io::Error::from(io::ErrorKind::WouldBlock));
        }
        let rest = &b"0123456789"[self.at.min(10)..];
        let count = rest.len().min(buf.len()).min(3);
        buf[..count].copy_from_slice(&rest[..count]);
        self.at = self.at.saturating_add(count);
        Ok(count)
    }
}

/// What a write does: takes this many bytes, and then the flush succeeds or fails; or the write fails.
#[derive(Clone, Copy)]
enum Turn {
    Takes(usize),
    TakesUnflushed(usize),
    Fails,
}

/// Holds what it took, does its turns in order, and counts its flushes in the cell.
#[derive(Drop)]
struct Writer<'a> {
    held: Vec<u8>,
    turns: [Turn; 5],
    at: usize,
    flushes: &'a Cell<u8>,
    stuck: bool,
}

impl<'a> Write for Writer<'a> {
    fn write(&mut self, buf: &[u8]) -> io::Result<usize> {
        let turn = match self.turns.get(self.at) {
            Some(turn) => *turn,
            None => Turn::Fails,
        };
        self.at = self.at.saturating_add(1);
        let (count, stuck) = match turn {
            Turn::Takes(count) => (count.min(buf.len()), false),
            Turn::TakesUnflushed(count) => (count.min(buf.len()), true),
            Turn::Fails => return Err(io::Error::from(io::ErrorKind::WouldBlock)),
        };
        self.stuck = stuck;
        match self.held.extend_from_slice(&buf[..count]) {
            Ok(()) => Ok(count),
            Err(_) => Err(io::Error::from(io::ErrorKind::OutOfMemory)),
        }
    }

    fn flush(&mut self) -> io::Result<()> {
        self.flushes.set(self.flushes.get().saturating_add(1));
        if self.stuck {
            return Err(io::Error::from(io::ErrorKind::WouldBlock));
        }
        Ok(())
    }
}

/// A read gives that many bytes, which begin thus, or fails.
fn expect_read(
    rt: &impl Abort,
    source: &mut StdSource<Reader>,
    buf: &mut [u8],
    count: Option<usize>,
    bytes: &[u8],
)
    requires { 0 < length buf.old }
{
    assert_eq!(rt; source.read(buf).ok(), count);
    assert!(rt; buf.starts_with(bytes));
}

#[test]
fn a_source_passes_a_reader_on(rt: HostRuntime) {
    let mut source = StdSource::new(Reader { at: 0, calls: 0 });
    let mut buf = [0u8; 8];
    expect_read(&rt, &mut source, &mut buf, Some(3), b"012");
    expect_read(&rt, &mut source, &mut buf, None, b"");
    expect_read(&rt, &mut source, &mut buf, Some(3), b"345");
    expect_read(&rt, &mut source, &mut buf[..2], Some(2), b"67");
    expect_read(&rt, &mut source, &mut buf, Some(2), b"89");
    expect_read(&rt, &mut source, &mut buf, Some(0), b"");
}

/// A write takes that many bytes.
fn expect_write(rt: &impl Abort, sink: &mut impl Sink, piece: &[u8], count: usize)
    requires { 0 < length piece.now }
{
    assert_eq!(rt; sink.write(piece).ok(), Some(count));
}

/// A writer that holds nothing, takes pieces at two turns, and then fails in each way.
fn writer_with_turns<'a>(alloc: Global, flushes: &'a Cell<u8>) -> Writer<'a> {
    Writer {
        held: Vec::new(alloc),
        turns: [
            Turn::Takes(9),
            Turn::Takes(2),
            Turn::Fails,
            Turn::Takes(0),
            Turn::TakesUnflushed(1),
        ],
        at: 0,
        flushes,
        stuck: false,
    }
}

/// Two writes are flushed, and three that come after them fail.
fn check_writes(rt: &impl Abort, sink: &mut impl Sink, flushes: &Cell<u8>) {
    expect_write(rt, sink, b"abc", 3);
    expect_write(rt, sink, b"defg", 2);
    assert_eq!(rt; flushes.get(), 2);
    for _ in 1..4u64 {
        assert!(rt; matches!(sink.write(b"xyz"), Err(SinkFault::Failed)));
    }
}

#[test]
fn a_sink_passes_pieces_to_a_writer(rt: HostRuntime) {
    let flushes = Cell::new(0u8);
    let mut writer = writer_with_turns(rt.alloc(), &flushes);
    let mut sink = StdSink::new(&mut writer);
    check_writes(&rt, &mut sink, &flushes);
    assert_eq!(rt; writer.held.as_slice(), b"abcdex".as_slice());
    drop(writer);
}
