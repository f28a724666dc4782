//! How a run ends.
ghost use Rattle.std.specs.Prelude.{◌≡◌};
ghost use Rattle.sr_engine.specs.Endings.{ending_of, status_of};

use sr_base::SinkFault;

/// How a run ended.
#[derive(Debug, Drop, Clone, Copy)]
pub enum End {
    /// The script was read to its end and answered whole; true where a line was refused.
    Done(bool),
    /// A read failed.
    ReadFailed,
    /// A write failed.
    WriteFailed,
    /// The run was out of memory.
    Memory,
    /// The script has more than 33,554,432 bytes.
    TooMuch,
}

impl End {
    /// How a run ends at a fault of the sink.
    pub fn at(fault: SinkFault) -> End
        ensures { result ≡ ending_of fault }
    {
        match fault {
            SinkFault::Failed => End::WriteFailed,
            SinkFault::Memory(_) => End::Memory,
        }
    }

    /// The status that a program ends with: 0 where no line was refused, 1 where one was, 3 where a read failed, 4 where
    /// a write failed, 5 where it was out of memory, and 6 where the script was too long.
    pub fn status(self) -> u8
        ensures { result ≡ status_of self }
    {
        match self {
            End::Done(false) => 0,
            End::Done(true) => 1,
            End::ReadFailed => 3,
            End::WriteFailed => 4,
            End::Memory => 5,
            End::TooMuch => 6,
        }
    }
}
