//! Why octets aren't read.

ghost use Rattle.std.specs.Prelude.{◌≡◌, ◌+◌, ◌<◌, ◌^◌};

use crate::fault::{Check, Malformed};
use std::alloc::{AllocError, AllocFailed};
use thiserror::Error;

/// Why octets aren't read as a PDU: they are malformed, or memory ran out.
#[derive(Debug, Drop, Error)]
pub enum ReadFault {
    #[error(transparent)]
    Malformed(Malformed),
    #[error(transparent)]
    Memory(AllocError),
}

impl From<AllocError> for ReadFault {
    ghost use Rattle.sr_wire.specs.declared.read_fault.ReadFault.TheVariants.{Memory};

    ghost from_gives = { λ error fault. fault ≡ Memory error };

    fn from(error: AllocError) -> ReadFault {
        ReadFault::Memory(error)
    }
}

impl<T: Drop> From<AllocFailed<T>> for ReadFault {
    ghost use Rattle.std.specs.Prelude.{alloc_error};
    ghost use Rattle.sr_wire.specs.declared.read_fault.ReadFault.TheVariants.{Memory};

    ghost from_gives = { λ _ fault. fault ≡ Memory alloc_error };

    fn from(_: AllocFailed<T>) -> ReadFault {
        ReadFault::Memory(AllocError)
    }
}

impl ReadFault {
    ghost use Rattle.sr_wire.specs.declared.fault.Check.TheVariants.{FieldExtent};
    ghost use Rattle.sr_wire.specs.Fault.{IfMalformed, fault_behind};

    /// A part of a value that passes the end of what holds it.
    pub fn cut(offset: usize) -> ReadFault
        ensures { result ≡ ReadFault.Malformed (record { offset = offset; check = FieldExtent }) }
    {
        ReadFault::Malformed(Malformed {
            offset,
            check: Check::FieldExtent,
        })
    }

    /// The same fault, as its place is counted with `octets` more octets before it.
    pub fn behind(self, octets: usize) -> ReadFault
        requires { IfMalformed self (λ malformed. malformed.offset + octets < 2 ^ 64) }
        ensures { result ≡ fault_behind self octets }
    {
        match self {
            ReadFault::Malformed(malformed) => ReadFault::Malformed(Malformed {
                offset: malformed.offset + octets,
                check: malformed.check,
            }),
            ReadFault::Memory(error) => ReadFault::Memory(error),
        }
    }
}
