//! The audit of a version in groups.
ghost use Rattle.std.specs.Prelude.{IfOk};
ghost use Rattle.sr_insight.specs.Groups.{IsCoverage};

use crate::groups::audit_groups;
use sr_audit::audit;
use sr_insight::{Group, Grouping};
use sr_repair::Version;
use std::alloc::{AllocError, Global};
use std::thread::Threads;

/// The groups of the version's audit, each with the counts of its items, the least covered first; of equally covered ones
/// that of the lesser number (this project's rule). Fails only out of memory.
pub fn coverage(
    rt: &(impl Threads + Sync),
    alloc: Global,
    version: &Version,
    grouping: Grouping,
) -> Result<Vec<Group>, AllocError>
    ensures { IfOk result (λ v. IsCoverage version.now.net grouping v.items) }
{
    let report = audit(rt, alloc, version)?;
    audit_groups(alloc, version.net(), grouping, report.items())
}
