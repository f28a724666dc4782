//! What runs between two lines.
ghost use Rattle.std.specs.Prelude.{◌≡◌, ◌<◌, ◌≤◌, IfOk, OnOk, MatchResult};
ghost use Rattle.std.specs.Arc.{arc_value};
ghost use Rattle.std.specs.Thread.{IsSync};
ghost use Rattle.sr_model.specs.declared.limits.TheConstants.{MOST_ROUNDS, MOST_WATCHERS};
ghost use Rattle.sr_work.specs.Works.{StartsWatch, MayFollow, AreReportsOf};
ghost use Rattle.sr_work.specs.Works.{after_publishing, usage_published, usage_joined};

use crate::hold::RunningHold;
use crate::watched::RunningWatch;
use sr_base::Runtime;
use sr_model::RoundReport;
use sr_repair::Version;
use sr_store::Usage;
use sr_watch::Gate;
use std::alloc::{AllocError, Global};
use std::sync::{Arc, Wait};
use std::thread::Threads;

/// The background work: none, a hold or a watch.
pub enum Work {
    Idle,
    Holds(RunningHold),
    Watches(RunningWatch),
}

impl Work {
    /// Starts a hold of this version. Fails only out of memory, and then nothing runs.
    pub fn hold<R: Runtime + 'static>(
        rt: &R,
        alloc: Global,
        version: &Arc<Version>,
    ) -> Result<Work, AllocError>
        requires shared { IsSync R.row }
        ensures { IfOk result (λ work. work ≡ Work.Holds (arc_value version.now)) }
    {
        let held = RunningHold::begin(rt, alloc, version)?;
        Ok(Work::Holds(held))
    }

    /// Starts a watch from this version: its watchers pass this gate before each of their rounds. Fails only out of
    /// memory, and then nothing runs.
    pub fn watch<R: Runtime + 'static, G: Gate + 'static>(
        rt: &R,
        alloc: Global,
        gate: &Arc<G>,
        version: &Arc<Version>,
        watchers: u32,
        rounds: u32,
        usage: &mut Usage,
    ) -> Result<Work, AllocError>
        requires shared { IsSync R.row }
        requires few { (0 < watchers) × (watchers ≤ MOST_WATCHERS) × (rounds ≤ MOST_ROUNDS) }
        ensures { IfOk result
            (λ work. StartsWatch watchers rounds (arc_value version.now) work usage.old usage.new) }
    {
        let watched = RunningWatch::begin(rt, alloc, gate, version, watchers, rounds, usage)?;
        Ok(Work::Watches(watched))
    }

    /// Publishes a version to the watch, where one runs. Fails only out of memory: then the work stays as it was, and
    /// is to be given up.
    pub fn publish<R: Wait>(
        &mut self,
        rt: &R,
        version: Arc<Version>,
        usage: &mut Usage,
    ) -> Result<(), AllocError>
        requires next { MayFollow self.old (arc_value version) }
        ensures work { MatchResult result
            (λ _. self.new ≡ after_publishing self.old (arc_value version))
            (λ _. self.new ≡ self.old) }
        ensures usage { OnOk result (usage.new ≡ usage_published self.old usage.old) }
    {
        match self {
            Work::Idle | Work::Holds(_) => Ok(()),
            Work::Watches(watched) => watched.publish(rt, version, usage),
        }
    }

    /// Waits for what runs, and gives its reports, in order of watcher and round. Fails only out of memory; then too
    /// nothing runs any more.
    pub fn join<R: Threads + Wait>(
        self,
        rt: &R,
        alloc: Global,
        usage: &mut Usage,
    ) -> Result<Vec<RoundReport>, AllocError>
        ensures reports { IfOk result (λ made. AreReportsOf self made.items) }
        ensures usage { OnOk result (usage.new ≡ usage_joined self usage.old) }
    {
        match self {
            Work::Idle => Ok(Vec::new(alloc)),
            Work::Holds(held) => {
                let report = held.join(rt)?;
                let mut reports = Vec::with_capacity(alloc, 1)?;
                reports.push(report)?;
                Ok(reports)
            }
            Work::Watches(watched) => watched.join(rt, alloc, usage),
        }
    }

    /// Waits for what runs, and gives up what it found.
    pub fn give_up<R: Threads + Wait>(self, rt: &R) {
        match self {
            Work::Idle => {}
            Work::Holds(held) => drop(held.join(rt)),
            Work::Watches(watched) => watched.give_up(rt),
        }
    }
}
