//! Why a PDU isn't written.

use std::alloc::AllocError;
use thiserror::Error;

/// Why a PDU has no spelling, or that memory ran out. A part is named by its place, from 0, and the length is the one
/// in octets that the PDU would have.
#[derive(Debug, Drop, Error)]
pub enum WriteFault {
    #[error("the TLV of part {part} would be too long")]
    PartTooLong { part: usize },
    #[error("the PDU would have {length} octets")]
    PduTooLong { length: u128 },
    #[error(transparent)]
    Memory(AllocError),
}
