//! Why a command isn't carried out.
ghost use Rattle.std.specs.Prelude.{◌≡◌};

use sr_print::Refusal;
use std::alloc::AllocError;

/// What was found, or the refusal that says what is missing ends the function: `?` for results whose error is a
/// `Refusal`, which the borrow checker of the toolchain doesn't cover.
macro_rules! found {
    ($result:expr) => {
        match $result {
            Ok(found) => found,
            Err(reason) => return Err(Stop::Refused(reason)),
        }
    };
}

pub(crate) use found;

/// Why a command isn't carried out.
#[derive(Debug, Drop)]
pub(crate) enum Stop {
    /// The line is refused for this reason.
    Refused(Refusal),
    /// Out of memory.
    Memory(AllocError),
}

impl From<Refusal> for Stop {
    ghost use Rattle.sr_run.specs.declared.stop.Stop.TheVariants.{Refused};

    ghost from_gives = { λ reason stop. stop ≡ Refused reason };

    fn from(reason: Refusal) -> Stop {
        Stop::Refused(reason)
    }
}

impl From<AllocError> for Stop {
    ghost use Rattle.sr_run.specs.declared.stop.Stop.TheVariants.{Memory};

    ghost from_gives = { λ error stop. stop ≡ Memory error };

    fn from(error: AllocError) -> Stop {
        Stop::Memory(error)
    }
}
