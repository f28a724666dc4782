//! How many labels the repairs of a version push.
ghost use Rattle.std.specs.Prelude.{IfOk};
ghost use Rattle.sr_insight.specs.Stacks.{HasStackCounts};

use crate::pushed::stack_counts_of;
use sr_audit::audit;
use sr_insight::StackCount;
use sr_repair::Version;
use std::alloc::{AllocError, Global};
use std::thread::Threads;

/// For each kind of failure and each number of labels that a repair of the version pushes, how many do so, in order of
/// kinds and then of numbers. Fails only out of memory.
pub fn stack_counts(
    rt: &(impl Threads + Sync),
    alloc: Global,
    version: &Version,
) -> Result<Vec<StackCount>, AllocError>
    ensures { IfOk result (λ v. HasStackCounts version.now.net v.items) }
{
    let report = audit(rt, alloc, version)?;
    stack_counts_of(alloc, version.net(), report.items())
}
