//! A source and a sink in memory that fail at the calls that they are told.
ghost use Rattle.std.specs.Prelude.{◌≡◌, ◌<◌, ◌≤◌, drop, length, slice_get, Some};
ghost use Rattle.std.specs.Vec.{vec_len};
ghost use Rattle.std.specs.Io.{ReadsAtMost};
ghost use Rattle.std.specs.Io.KnownBytes.{ReadConsumes};
ghost use Rattle.sr_base.specs.Faults.{HasCause};
ghost use Rattle.sr_base.specs.Memory.{Feed, Store, Feeds, Stores, opening_feed, opening_store, bounded_by};
ghost use Rattle.sr_base.specs.Writing.{WritesPiece};

use crate::give::give;
use crate::{Failed, Sink, SinkFault, Source};
use std::alloc::Global;
use std::marker::Model;

/// A source that gives its bytes in pieces of given lengths, and fails at given calls. Contracts see it as a `Feed`.
#[derive(Drop)]
pub struct MemorySource {
    bytes: Vec<u8>,
    at: usize,
    pieces: Vec<usize>,
    failing: Vec<u64>,
    calls: u64,
    faults: u64,
}

impl Model for MemorySource {
    ghost Value = { Feed };

    ghost view = { λ s. record { left = drop s.at s.bytes.items; pieces = s.pieces.items; failing = s.failing.items; calls = s.calls; faults = s.faults } };

    ghost invariant = { λ s. s.at ≤ vec_len s.bytes };
}

/// At most as many bytes as the piece of this call has: at least one, and no bound where the list is at its end.
fn bounded(pieces: &[usize], call: u64, count: usize) -> usize
    ensures value { result ≡ bounded_by (slice_get pieces.now call) count }
    ensures some { 0 < count → 0 < result }
    ensures most { result ≤ count }
{
    match pieces.get(call as usize) {
        Some(most) => count.min((*most).max(1)),
        None => count,
    }
}

impl MemorySource {
    /// A source of these bytes. Its n-th call, from 0, gives at most `pieces[n]` bytes, at least one where any are left
    /// and with no bound past the list's end, and fails where n is in `failing`. A call that fails gives nothing.
    pub fn new(bytes: Vec<u8>, pieces: Vec<usize>, failing: Vec<u64>) -> MemorySource
        ensures { result ≡ opening_feed bytes.items pieces.items failing.items }
    {
        MemorySource {
            bytes,
            at: 0,
            pieces,
            failing,
            calls: 0,
            faults: 0,
        }
    }

    /// How many reads were made. The count stays at 2^64 - 1.
    pub fn calls(&self) -> u64
        ensures { result ≡ self.now.calls }
    {
        self.calls
    }
}

impl Source for MemorySource {
    ghost left = { λ s. Some s.left };

    ghost faults = { λ s. s.faults };

    fn read(&mut self, buf: &mut [u8]) -> Result<usize, Failed>
        requires { 0 < length buf.old }
        ensures bound { ReadsAtMost result buf.new }
        ensures bytes { ReadConsumes (Some self.old.left) (Some self.new.left) result buf.new }
        ensures cause { HasCause self.old.faults self.new.faults result }
        ensures feeds { Feeds self.old self.new (length buf.old) result }
    {
        let call = self.calls;
        self.calls = call.saturating_add(1);
        if self.failing.contains(&call) {
            self.faults = self.faults.saturating_add(1);
            return Err(Failed);
        }
        let most = bounded(&self.pieces, call, buf.len());
        let count = give(&self.bytes[self.at..], most, buf);
        self.at += count;
        Ok(count)
    }
}

/// A sink that takes each piece whole, and fails at given calls. Contracts see it as a `Store`.
#[derive(Drop)]
pub struct MemorySink {
    bytes: Vec<u8>,
    failing: Vec<u64>,
    calls: u64,
    faults: u64,
}

impl Model for MemorySink {
    ghost Value = { Store };

    ghost view = { λ s. record { held = s.bytes.items; failing = s.failing.items; calls = s.calls; faults = s.faults } };
}

impl MemorySink {
    /// A sink that holds nothing yet, and takes its memory from this allocator. Its calls, counted from 0, fail where
    /// they are in `failing`, and then append nothing.
    pub fn new(alloc: Global, failing: Vec<u64>) -> MemorySink
        ensures { result ≡ opening_store failing.items }
    {
        MemorySink {
            bytes: Vec::new(alloc),
            failing,
            calls: 0,
            faults: 0,
        }
    }

    /// The bytes that it holds.
    pub fn bytes(&self) -> &[u8]
        ensures { result.now ≡ self.now.held }
    {
        self.bytes.as_slice()
    }

    /// How many writes were made. The count stays at 2^64 - 1.
    pub fn calls(&self) -> u64
        ensures { result ≡ self.now.calls }
    {
        self.calls
    }
}

impl Sink for MemorySink {
    ghost held = { λ s. Some s.held };

    ghost faults = { λ s. s.faults };

    fn write(&mut self, piece: &[u8]) -> Result<usize, SinkFault>
        requires { 0 < length piece.now }
        ensures wrote { WritesPiece (Some self.old.held) (Some self.new.held)
            self.old.faults self.new.faults piece.now result }
        ensures stores { Stores self.old self.new piece.now result }
    {
        let call = self.calls;
        self.calls = call.saturating_add(1);
        if self.failing.contains(&call) {
            self.faults = self.faults.saturating_add(1);
            return Err(SinkFault::Failed);
        }
        match self.bytes.extend_from_slice(piece) {
            Ok(()) => Ok(piece.len()),
            Err(error) => Err(SinkFault::Memory(error)),
        }
    }
}
