//! Why an edit isn't staged.

ghost use Rattle.std.specs.Prelude.{◌≡◌};

use std::alloc::AllocError;
use thiserror::Error;

/// Why an edit isn't staged: a PDU is not newer than what is stored, and these are both sequence numbers; as many
/// edits are staged as may be; or memory ran out.
#[derive(Debug, Drop, Error)]
pub enum StageFault {
    #[error("sequence number {given} is stale: {stored} is stored")]
    Stale { stored: u32, given: u32 },
    #[error("too many edits are staged")]
    Full,
    #[error(transparent)]
    Memory(AllocError),
}

impl From<AllocError> for StageFault {
    ghost use Rattle.sr_lsdb.specs.declared.stage_fault.StageFault.TheVariants.{Memory};

    ghost from_gives = { λ error fault. fault ≡ Memory error };

    fn from(error: AllocError) -> StageFault {
        StageFault::Memory(error)
    }
}
