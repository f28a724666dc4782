//! Sources and sinks that give and take little, or that count.
ghost use Rattle.std.specs.Prelude.{None};

use sr_base::{Failed, Sink, SinkFault, Source};
use std::cell::Cell;

/// Takes at most two bytes at a call.
#[derive(Drop)]
pub struct Drip {
    pub bytes: Vec<u8>,
}

impl Sink for Drip {
    ghost held = { λ s. None };

    ghost faults = { λ s. 0 };

    fn write(&mut self, piece: &[u8]) -> Result<usize, SinkFault> {
        let count = piece.len().min(2);
        match self.bytes.extend_from_slice(&piece[..count]) {
            Ok(()) => Ok(count),
            Err(error) => Err(SinkFault::Memory(error)),
        }
    }
}

/// Gives this many bytes, in as many lines as calls.
#[derive(Drop)]
pub struct Remarks {
    pub left: usize,
}

impl Source for Remarks {
    ghost left = { λ s. None };

    ghost faults = { λ s. 0 };

    fn read(&mut self, buf: &mut [u8]) -> Result<usize, Failed> {
        let count = self.left.min(buf.len());
        buf.fill(b'#');
        if count > 0 {
            buf[count - 1] = b'\n';
        }
        self.left -= count;
        Ok(count)
    }
}

/// Counts in the cell the bytes that it was given.
#[derive(Drop)]
pub struct Tally<'a> {
    pub written: &'a Cell<usize>,
}

impl<'a> Sink for Tally<'a> {
    ghost held = { λ s. None };

    ghost faults = { λ s. 0 };

    fn write(&mut self, piece: &[u8]) -> Result<usize, SinkFault> {
        let written = self.written.get();
        self.written.set(written.saturating_add(piece.len()));
        Ok(piece.len())
    }
}

/// Gives the line `a` at each of its first three calls, then `ab` without a line feed, and is then at its end. It notes
/// what was written when each call came.
#[derive(Drop)]
pub struct Watch<'a> {
    pub written: &'a Cell<usize>,
    pub seen: [usize; 5],
    pub calls: usize,
}

impl<'a> Source for Watch<'a> {
    ghost left = { λ s. None };

    ghost faults = { λ s. 0 };

    fn read(&mut self, buf: &mut [u8]) -> Result<usize, Failed> {
        let call = self.calls;
        if call >= 5 {
            return Ok(0);
        }
        self.calls = call + 1;
        self.seen[call] = self.written.get();
        let count = if call == 4 { 0 } else { 2.min(buf.len()) };
        let text = if call == 3 { b"ab" } else { b"a\n" };
        buf[..count].copy_from_slice(&text[..count]);
        Ok(count)
    }
}
