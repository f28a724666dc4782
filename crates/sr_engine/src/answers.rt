//! Gathers answers, and writes them where many are gathered.
ghost use Rattle.std.specs.Prelude.{◌≡◌, ◌≤◌, [], length, OnOk};
ghost use Rattle.sr_engine.specs.Endings.{Finishes};
ghost use Rattle.sr_engine.specs.Written.{Flushes, Puts, most_gathered, written};

use crate::end::End;
use crate::output::write_all;
use sr_base::{Sink, SinkFault};
use std::alloc::Global;
use std::marker::Model;

/// Where more bytes of answers than this are gathered, they are written.
const GATHERED: usize = 65_536;

/// The answers that are still to be written. Contracts see them as their bytes.
#[derive(Drop)]
pub struct Answers {
    bytes: Vec<u8>,
}

impl Model for Answers {
    ghost use Rattle.std.specs.Prelude.{ℕ, List};

    ghost Value = { List ℕ };

    ghost view = { λ s. s.bytes.items };
}

impl Answers {
    /// No answer is gathered yet. They take their memory from this allocator.
    pub fn new(alloc: Global) -> Answers
        ensures { result ≡ [] }
    {
        Answers {
            bytes: Vec::new(alloc),
        }
    }

    /// Writes what is gathered. At a fault the sink was given a beginning of it.
    pub fn flush<K: Sink>(&mut self, sink: &mut K) -> Result<(), SinkFault>
        ensures { Flushes (written (K.held sink.old) (K.faults sink.old) self.old)
            (written (K.held sink.new) (K.faults sink.new) self.new) result }
    {
        match write_all(sink, self.bytes.as_slice()) {
            Ok(()) => {
                self.bytes.clear();
                Ok(())
            }
            Err(fault) => Err(fault),
        }
    }

    /// Answers this text: it is gathered, and all is written where much is gathered. So however long an answer is, not
    /// much more of it is held than its longest text. At a fault the sink was given a beginning of all; after one the
    /// run ends.
    pub fn put<K: Sink>(&mut self, sink: &mut K, text: &[u8]) -> Result<(), SinkFault>
        ensures puts { Puts (written (K.held sink.old) (K.faults sink.old) self.old)
            (written (K.held sink.new) (K.faults sink.new) self.new) text.now result }
        ensures few { OnOk result (length self.new ≤ most_gathered) }
    {
        match self.bytes.extend_from_slice(text) {
            Ok(()) => {}
            Err(error) => return Err(SinkFault::Memory(error)),
        }
        if self.bytes.len() <= GATHERED {
            return Ok(());
        }
        self.flush(sink)
    }

    /// Writes what is gathered where the script was answered whole, and says how the run ended. `refused` tells whether a
    /// line was refused.
    pub fn finish<K: Sink>(&mut self, sink: &mut K, refused: bool) -> End
        ensures { Finishes (written (K.held sink.old) (K.faults sink.old) self.old)
            (written (K.held sink.new) (K.faults sink.new) self.new) refused result }
    {
        match self.flush(sink) {
            Ok(()) => End::Done(refused),
            Err(fault) => End::at(fault),
        }
    }
}
