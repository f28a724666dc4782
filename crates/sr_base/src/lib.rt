//! What the program stands on: where bytes come from and where they go, as sources and sinks that count their faults,
//! and the runtime.
//!
//! A source may tell what it has left, and a sink what it holds. Those in memory do. Those over a reader or a writer of
//! std tell what it tells, which of standard input and standard output is nothing.
#![tactic(auto)]

ghost use Rattle.std.specs.Prelude.{ℕ, ◌<◌, List, length};
ghost use Rattle.std.specs.declared.option.Option.{Option};
ghost use Rattle.std.specs.Io.{ReadsAtMost};
ghost use Rattle.std.specs.Io.KnownBytes.{ReadConsumes};
ghost use Rattle.sr_base.specs.Faults.{HasCause};
ghost use Rattle.sr_base.specs.Writing.{WritesPiece};

use std::alloc::AllocError;

mod adapters;
mod give;
mod memory;
mod numbered;
mod runtime;
mod steady;

pub use adapters::{StdSink, StdSource};
pub use memory::{MemorySink, MemorySource};
pub use numbered::Numbered;
pub use runtime::Runtime;
pub use steady::{SteadySink, SteadySource};

/// A read failed.
#[derive(Debug, Drop, Clone, Copy)]
pub struct Failed;

/// Why a write took nothing, or not all.
#[derive(Debug, Drop)]
pub enum SinkFault {
    /// The sink failed, and counted it; the count stays at its last value 2^64 - 1.
    Failed,
    /// Memory was wanted, and the sink holds what it held.
    Memory(AllocError),
}

/// Where bytes come from.
pub trait Source {
    /// The bytes that are left, where the source tells.
    ghost left: { Self → Option (List ℕ) };

    /// How many reads failed. The count never falls, and stays at its last value 2^64 - 1.
    ghost faults: { Self → ℕ };

    /// Takes the next bytes, puts them in front of the buffer, and says how many they are. `Ok(0)` comes only at the
    /// end. A failed read takes nothing; it comes only where the count of faults rose in this call, or stands at its
    /// last value 2^64 - 1.
    fn read(&mut self, buf: &mut [u8]) -> Result<usize, Failed>
        requires { 0 < length buf.old }
        ensures bound { ReadsAtMost result buf.new }
        ensures bytes { ReadConsumes (left self.old) (left self.new) result buf.new }
        ensures cause { HasCause (faults self.old) (faults self.new) result };
}

/// Where bytes go.
pub trait Sink {
    /// The bytes that it holds, where the sink tells.
    ghost held: { Self → Option (List ℕ) };

    /// How many writes failed. The count never falls, and stays at its last value 2^64 - 1.
    ghost faults: { Self → ℕ };

    /// Appends the first bytes of the piece, at least one, and says how many. `Failed` appends a beginning of the piece
    /// or nothing, and comes only where the count of faults rose in this call, or stands at its last value 2^64 - 1.
    /// `Memory` appends nothing, and leaves the count as it was.
    fn write(&mut self, piece: &[u8]) -> Result<usize, SinkFault>
        requires { 0 < length piece.now }
        ensures { WritesPiece (held self.old) (held self.new) (faults self.old) (faults self.new) piece.now result };
}
