//! A hold that runs between two lines.
ghost use Rattle.std.specs.Prelude.{◌≡◌, IfOk};
ghost use Rattle.std.specs.Arc.{arc_value};
ghost use Rattle.std.specs.Thread.{IsSync};
ghost use Rattle.sr_work.specs.Reports.{IsHoldReport};

use crate::counting::Counting;
use crate::reporting::report_of;
use sr_base::Runtime;
use sr_model::RoundReport;
use sr_repair::Version;
use sr_watch::{Joined, Watch, hold};
use std::alloc::{AllocError, Global};
use std::marker::Model;
use std::snapshot::Snapshot;
use std::sync::Arc;
use std::thread::Threads;

/// A hold: one audit of one version, in a thread where there is one. Contracts see it as the version. It isn't `Drop`, so
/// whoever has one joins it or hands it on.
pub struct RunningHold {
    watch: Watch<Version, Counting>,
    version: Snapshot<Version>,
}

impl Model for RunningHold {
    ghost use Rattle.sr_repair.specs.Version.{NumberedNet};
    ghost use Rattle.sr_work.specs.Started.{HoldsVersion};

    ghost Value = { NumberedNet };

    ghost view = { λ h. h.version.value };

    ghost invariant = { λ h. HoldsVersion h.watch h.version.value };
}

impl RunningHold {
    /// Starts the audit of this version. Fails only out of memory, and then nothing runs.
    pub(crate) fn begin<R: Runtime + 'static>(
        rt: &R,
        alloc: Global,
        version: &Arc<Version>,
    ) -> Result<RunningHold, AllocError>
        requires shared { IsSync R.row }
        ensures { IfOk result (λ h. h ≡ arc_value version.now) }
    {
        let held = Arc::try_clone(version)?;
        let seen: &Version = version;
        let version = Snapshot::of(seen);
        match hold(rt, alloc, Counting, held) {
            Ok(watch) => Ok(RunningHold { watch, version }),
            Err(refused) => Err(refused),
        }
    }

    /// Waits for the audit, and gives its report. Fails only out of memory; then too nothing runs any more.
    pub(crate) fn join(self, rt: &impl Threads) -> Result<RoundReport, AllocError>
        ensures { IfOk result (IsHoldReport self) }
    {
        let RunningHold {
            watch,
            version: _version,
        } = self;
        let Joined {
            readers: _readers,
            result,
        } = watch.join(rt);
        match result {
            Ok(rounds) => {
                let made = &rounds[0];
                Ok(report_of(None, made.number, made.out))
            }
            Err(refused) => Err(refused),
        }
    }
}
