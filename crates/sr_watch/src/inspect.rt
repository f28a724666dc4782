//! What a watcher does in one round.
ghost use Rattle.std.specs.Prelude.{IfOk};
ghost use Rattle.std.specs.Thread.{IsSync};
ghost use Rattle.sr_watch.specs.Rounds.{IsRound, inspection_by};

use crate::task::Task;
use sr_base::{Numbered, Runtime};
use std::alloc::{AllocError, Global};

/// What each round passes before it looks. It may wait there, and promises nothing.
pub trait Gate: Send + Sync + Drop {
    fn pass(&self, watcher: u32, round: u32);
}

/// A gate that is always open: it returns at once.
#[derive(Drop)]
pub struct OpenGate;

impl Gate for OpenGate {
    fn pass(&self, _watcher: u32, _round: u32) {}
}

/// How a watcher inspects a version.
pub trait Inspect<V>: Copy + Send {
    /// What an inspection gives.
    type Out;

    /// What a result means of the version that was inspected.
    ghost means: { Self → V → Self.Out → Type 0 };

    /// Inspects a version. The error is out of memory.
    fn inspect<R: Runtime>(
        &self,
        rt: &R,
        alloc: Global,
        version: &V,
    ) -> Result<Self::Out, AllocError>
        requires shared { IsSync R.row }
        ensures { IfOk result (means self.now version.now) };
}

/// What a watcher saw in a round: the number of a version, and its inspection.
#[derive(Drop)]
pub struct Round<O> {
    pub watcher: u32,
    pub round: u32,
    pub number: u32,
    pub out: O,
}

/// The round of this number on a version. The error is out of memory.
pub(crate) fn inspected<R: Runtime, V: Numbered, I: Inspect<V>>(
    rt: &R,
    alloc: Global,
    task: Task<I>,
    round: u32,
    version: &V,
) -> Result<Round<I::Out>, AllocError>
    requires shared { IsSync R.row }
    ensures { IfOk result (IsRound (inspection_by V.number_of I.means) task round version.now) }
{
    let number = version.number();
    match task.inspect.inspect(rt, alloc, version) {
        Ok(out) => Ok(Round {
            watcher: task.watcher,
            round,
            number,
            out,
        }),
        Err(refused) => Err(refused),
    }
}
