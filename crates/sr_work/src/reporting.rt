//! The reports of the rounds that were made.
ghost use Rattle.std.specs.Prelude.{◌≡◌, ◌-◌, map, IfOk};
ghost use Rattle.sr_work.specs.Reported.{report_of, is_refused, report_made, AreMade};

use sr_audit::counts;
use sr_model::{Counts, RoundReport, WatchRound};
use sr_repair::Version;
use sr_watch::Round;
use std::alloc::{AllocError, Global};

/// A report of this round, version and counts.
pub(crate) fn report_of(round: Option<WatchRound>, version: u32, counts: Counts) -> RoundReport
    ensures { result ≡ report_of round version counts }
{
    RoundReport {
        round,
        version,
        counts,
    }
}

/// Whether the last turn of the reader at this place was refused.
fn is_refused(ended: &[bool], place: usize) -> bool
    ensures { result ≡ is_refused ended.now place }
{
    match ended.get(place) {
        Some(ended) => !*ended,
        None => false,
    }
}

/// The report of a round of a watch: its own, or one of the first version where the last turn of the watcher's reader
/// was refused.
fn report_made(ended: &[bool], first: u32, anew: Counts, made: &Round<Counts>) -> RoundReport
    ensures { result ≡ report_made ended.now first anew made.now }
{
    let round = Some(WatchRound {
        watcher: made.watcher,
        round: made.round,
    });
    if is_refused(ended, made.watcher.saturating_sub(1) as usize) {
        report_of(round, first, anew)
    } else {
        report_of(round, made.number, made.out)
    }
}

/// The reports of these rounds, in their order.
fn all_made(
    alloc: Global,
    ended: &[bool],
    first: u32,
    anew: Counts,
    rounds: Vec<Round<Counts>>,
) -> Result<Vec<RoundReport>, AllocError>
    ensures { IfOk result
        (λ made. made.items ≡ map (report_made ended.now first anew) rounds.items) }
{
    let mut reports = Vec::with_capacity(alloc, rounds.len())?;
    for made in rounds {
        reports.push(report_made(ended, first, anew, &made))?;
    }
    Ok(reports)
}

/// The reports of these rounds, in their order; those of a watcher whose reader's last turn was refused are made anew on
/// the first version. Fails only out of memory.
pub(crate) fn reports_made(
    alloc: Global,
    ended: &[bool],
    first: &Version,
    rounds: Vec<Round<Counts>>,
) -> Result<Vec<RoundReport>, AllocError>
    ensures { IfOk result (λ made. AreMade ended.now first.now rounds.items made.items) }
{
    let anew = counts(first);
    all_made(alloc, ended, first.number(), anew, rounds)
}
