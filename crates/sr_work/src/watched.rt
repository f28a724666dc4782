//! A watch that runs between two lines.
ghost use Rattle.std.specs.Prelude.{◌≡◌, ◌*◌, ◌<◌, ◌≤◌, IfOk, OnOk, MatchResult, vec_len};
ghost use Rattle.std.specs.Arc.{arc_value};
ghost use Rattle.std.specs.Thread.{IsSync};
ghost use Rattle.sr_store.specs.Closes.{Ended, turns_of};
ghost use Rattle.sr_store.specs.Counts.{opened, spread, usage_turned};
ghost use Rattle.sr_store.specs.Histories.{with_mark};
ghost use Rattle.sr_store.specs.Seats.{SeatsFrom};
ghost use Rattle.sr_work.specs.Reports.{AreReports};
ghost use Rattle.sr_model.specs.declared.limits.TheConstants.{MOST_ROUNDS, MOST_WATCHERS};
ghost use Rattle.sr_work.specs.Watched.{watched_from, with_next, IsNumberedNext};

use crate::counting::Counting;
use crate::reporting::reports_made;
use sr_base::Runtime;
use sr_model::RoundReport;
use sr_repair::Version;
use sr_store::{Reader, Usage, Writer, abandon, close, open};
use sr_watch::{Gate, Joined, Rota, Watch, start};
use std::alloc::{AllocError, Global};
use std::marker::Model;
use std::sync::{Arc, Wait};
use std::thread::Threads;

/// A watch: watchers that audit what is published, each in a thread where there is one. Contracts see it as its watchers
/// and rounds, how many of the watchers have a reader, and the versions that they could meet so far.
pub struct RunningWatch {
    watch: Watch<Version, Counting>,
    writer: Writer<Version>,
    first: Arc<Version>,
    watchers: u32,
    rounds: u32,
    given: u32,
}

impl Model for RunningWatch {
    ghost use Rattle.std.specs.Prelude.{◌≡◌};
    ghost use Rattle.std.specs.Arc.{arc_value};
    ghost use Rattle.sr_work.specs.Watched.{Watched};
    ghost use Rattle.sr_work.specs.Started.{WasStarted};

    ghost Value = { Watched };

    ghost view = { λ w. record {
      watchers = w.watchers;
      rounds = w.rounds;
      given = w.given;
      versions = w.writer.list.versions;
    } };

    ghost invariant = { λ w. (w.writer.given ≡ w.given) × WasStarted w.watch w.writer.list (arc_value w.first)
        (record { watchers = w.watchers; rounds = w.rounds; given = w.given; versions = w.writer.list.versions }) };
}

/// Closes the store, and says of each reader whether its last turn was given. Fails only out of memory; then too the
/// store is given up.
fn close_store<R: Wait>(
    rt: &R,
    alloc: Global,
    writer: Writer<Version>,
    readers: Vec<Reader<Version>>,
    usage: &mut Usage,
) -> Result<Vec<bool>, AllocError>
    requires { SeatsFrom writer.list.store 0 readers.items × (writer.given ≡ vec_len readers) }
    ensures ended { IfOk result (λ ended. Ended (with_mark writer.list) readers.items ended.items) }
    ensures usage { OnOk result (usage.new ≡ usage_turned usage.old (turns_of readers.items)) }
{
    if writer.stuck() {
        abandon(rt, writer, readers);
        return Err(AllocError);
    }
    match close(rt, alloc, writer, readers, usage) {
        Ok(closed) => Ok(closed.ended),
        Err((refused, writer, readers)) => {
            abandon(rt, writer, readers);
            Err(refused)
        }
    }
}

impl RunningWatch {
    /// Opens a store with this version, which tells each reader that list, and starts the watchers: the first of them
    /// at the readers, the others at the version itself. Fails only out of memory, and then nothing runs.
    pub(crate) fn begin<R: Runtime + 'static, G: Gate + 'static>(
        rt: &R,
        alloc: Global,
        gate: &Arc<G>,
        version: &Arc<Version>,
        watchers: u32,
        rounds: u32,
        usage: &mut Usage,
    ) -> Result<RunningWatch, AllocError>
        requires shared { IsSync R.row }
        requires few { (0 < watchers) × (watchers ≤ MOST_WATCHERS) × (rounds ≤ MOST_ROUNDS) }
        ensures given { IfOk result (λ w. w.given ≤ watchers) }
        ensures watched { IfOk result
            (λ w. w ≡ watched_from watchers rounds w.given (arc_value version.now)) }
        ensures usage { IfOk result (λ w. usage.new ≡ opened usage.old watchers w.given) }
    {
        let first = Arc::try_clone(version)?;
        let shown = Arc::try_clone(version)?;
        let current = Arc::try_clone(version)?;
        let (writer, readers) = open(rt, alloc, shown, watchers, usage)?;
        let given = readers.len() as u32;
        let rota = Rota { watchers, rounds };
        match start(rt, alloc, Counting, gate, readers, rota, current) {
            Ok(watch) => Ok(RunningWatch {
                watch,
                writer,
                first,
                watchers,
                rounds,
                given,
            }),
            Err((refused, readers)) => {
                abandon(rt, writer, readers);
                Err(refused)
            }
        }
    }

    /// Publishes the next version. Fails only out of memory: then the versions stay as they were, and the watch is to
    /// be given up.
    pub(crate) fn publish<R: Wait>(
        &mut self,
        rt: &R,
        version: Arc<Version>,
        usage: &mut Usage,
    ) -> Result<(), AllocError>
        requires next { IsNumberedNext self.old.versions (arc_value version) }
        ensures watched { MatchResult result
            (λ _. self.new ≡ with_next self.old (arc_value version))
            (λ _. self.new ≡ self.old) }
        ensures usage { OnOk result (usage.new ≡ spread usage.old) }
    {
        if self.writer.stuck() {
            return Err(AllocError);
        }
        self.writer.publish(rt, version, usage)
    }

    /// Waits for the watchers, closes the store, and gives the reports. Fails only out of memory; then too nothing runs
    /// any more, and the store is given up.
    pub(crate) fn join<R: Threads + Wait>(
        self,
        rt: &R,
        alloc: Global,
        usage: &mut Usage,
    ) -> Result<Vec<RoundReport>, AllocError>
        ensures reports { IfOk result
            (λ made. AreReports self.watchers self.rounds self.versions made.items) }
        ensures usage { OnOk result (usage.new ≡ usage_turned usage.old (self.given * self.rounds)) }
    {
        let RunningWatch {
            watch,
            writer,
            first,
            watchers: _,
            rounds: _,
            given: _,
        } = self;
        let Joined { readers, result } = watch.join(rt);
        match result {
            Ok(rounds) => {
                let ended = close_store(rt, alloc, writer, readers, usage)?;
                reports_made(alloc, &ended, &first, rounds)
            }
            Err(refused) => {
                abandon(rt, writer, readers);
                Err(refused)
            }
        }
    }

    /// Waits for the watchers, and gives up the store and all that was found.
    pub(crate) fn give_up<R: Threads + Wait>(self, rt: &R) {
        let RunningWatch {
            watch,
            writer,
            first: _first,
            watchers: _,
            rounds: _,
            given: _,
        } = self;
        let Joined { readers, result: _ } = watch.join(rt);
        abandon(rt, writer, readers);
    }
}
