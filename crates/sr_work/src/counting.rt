//! What a watcher looks for in a version: the counts of its audit.

use sr_audit::counts;
use sr_base::Runtime;
use sr_model::Counts;
use sr_repair::Version;
use sr_watch::Inspect;
use std::alloc::{AllocError, Global};

/// The inspection of a version: how many answers of its audit are of each sort. It takes no memory and no threads.
#[derive(Clone, Copy, Drop)]
pub struct Counting;

impl Inspect<Version> for Counting {
    type Out = Counts;

    ghost use Rattle.sr_audit.specs.Counted.{AreAuditCounts};

    ghost means = { λ inspect version out. AreAuditCounts version.net out };

    fn inspect<R: Runtime>(
        &self,
        _rt: &R,
        _alloc: Global,
        version: &Version,
    ) -> Result<Counts, AllocError> {
        Ok(counts(version))
    }
}
