//! Why facts give no net.
ghost use Rattle.std.specs.Prelude.{◌≡◌};

use sr_model::DomainRule;
use std::alloc::AllocError;

/// Why facts give no net.
#[derive(Debug, Drop)]
pub enum DomainFault {
    /// The first rule that they break.
    Rule(DomainRule),
    /// Out of memory.
    Memory(AllocError),
}

impl From<AllocError> for DomainFault {
    ghost use Rattle.sr_domain.specs.declared.fault.DomainFault.TheVariants.{Memory};

    ghost from_gives = { λ error fault. fault ≡ Memory error };

    fn from(error: AllocError) -> DomainFault {
        DomainFault::Memory(error)
    }
}
