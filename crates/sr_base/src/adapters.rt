//! A source over any reader of std, and a sink over any writer. What these really read and write no clause says.
ghost use Rattle.std.specs.Prelude.{◌≡◌, ◌<◌, length, IfErr};
ghost use Rattle.std.specs.Io.{ReadsAtMost};
ghost use Rattle.std.specs.Io.KnownBytes.{ReadConsumes};
ghost use Rattle.sr_base.specs.Faults.{Counted, HasCause, RaisesAtErr};
ghost use Rattle.sr_base.specs.Writing.{WritesPiece, PassesOn, RaisesAtFailed};

use crate::{Failed, Sink, SinkFault, Source};
use std::io::{Read, Write};
use std::marker::Model;

/// A source over a reader. Contracts see it as the reader and the count of its faults.
#[derive(Drop)]
pub struct StdSource<T> {
    inner: T,
    faults: u64,
}

impl<T> Model for StdSource<T> {
    ghost Value = { Counted T };

    ghost view = { λ s. record { inner = s.inner; faults = s.faults } };
}

impl<T: Read> StdSource<T> {
    /// A source over this reader, with no fault yet.
    pub fn new(reader: T) -> StdSource<T>
        ensures { result ≡ record { inner = reader; faults = 0 } }
    {
        StdSource {
            inner: reader,
            faults: 0,
        }
    }
}

impl<T: Read> Source for StdSource<T> {
    ghost left = { λ s. T.remaining s.inner };

    ghost faults = { λ s. s.faults };

    /// Reads once. Where that fails the count rises by one, or stays at its last value 2^64 - 1.
    fn read(&mut self, buf: &mut [u8]) -> Result<usize, Failed>
        requires { 0 < length buf.old }
        ensures bound { ReadsAtMost result buf.new }
        ensures bytes { ReadConsumes (T.remaining self.old.inner) (T.remaining self.new.inner) result buf.new }
        ensures cause { HasCause self.old.faults self.new.faults result }
        ensures raises { RaisesAtErr self.old.faults self.new.faults result }
    {
        match self.inner.read(buf) {
            Ok(given) => Ok(given),
            Err(_) => {
                self.faults = self.faults.saturating_add(1);
                Err(Failed)
            }
        }
    }
}

/// A sink over a writer. Contracts see it as the writer and the count of its faults.
#[derive(Drop)]
pub struct StdSink<T> {
    inner: T,
    faults: u64,
}

impl<T> Model for StdSink<T> {
    ghost Value = { Counted T };

    ghost view = { λ s. record { inner = s.inner; faults = s.faults } };
}

impl<T: Write> StdSink<T> {
    /// A sink over this writer, with no fault yet.
    pub fn new(writer: T) -> StdSink<T>
        ensures { result ≡ record { inner = writer; faults = 0 } }
    {
        StdSink {
            inner: writer,
            faults: 0,
        }
    }
}

/// Writes once and flushes. A write that takes nothing counts as failed, and so does one whose flush fails.
fn write_through<T: Write>(writer: &mut T, piece: &[u8]) -> Result<usize, Failed>
    requires { 0 < length piece.now }
    ensures { PassesOn (T.contents writer.old) (T.contents writer.new) piece.now result }
{
    let count = match writer.write(piece) {
        Ok(0) => return Err(Failed),
        Ok(count) => count,
        Err(_) => return Err(Failed),
    };
    match writer.flush() {
        Ok(()) => Ok(count),
        Err(_) => Err(Failed),
    }
}

impl<T: Write> Sink for StdSink<T> {
    ghost held = { λ s. T.contents s.inner };

    ghost faults = { λ s. s.faults };

    /// Writes once and flushes. At an error of either, and where the write takes nothing, the count rises by one, or
    /// stays at its last value 2^64 - 1. The sink takes no memory of its own, so each fault is `Failed`.
    fn write(&mut self, piece: &[u8]) -> Result<usize, SinkFault>
        requires { 0 < length piece.now }
        ensures wrote { WritesPiece (T.contents self.old.inner) (T.contents self.new.inner)
            self.old.faults self.new.faults piece.now result }
        ensures raises { RaisesAtFailed self.old.faults self.new.faults result }
        ensures failed { IfErr result (λ fault. fault ≡ SinkFault.Failed) }
    {
        match write_through(&mut self.inner, piece) {
            Ok(taken) => Ok(taken),
            Err(_) => {
                self.faults = self.faults.saturating_add(1);
                Err(SinkFault::Failed)
            }
        }
    }
}
