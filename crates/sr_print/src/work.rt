//! The lines of background work.
ghost use Rattle.std.specs.Prelude.{◌≡◌, ◌++◌, OnOk, OnErr};
ghost use Rattle.sr_print.specs.Printed.{BeginsWith};
ghost use Rattle.sr_print.specs.Work.{hold_line, watch_line, round_text, report_line, joined_line};

use crate::audit::put_counts;
use crate::line::{end, put_numbered};
use crate::number::put_value;
use sr_model::{RoundReport, WatchRound};
use std::alloc::AllocError;

/// Appends `hold version V`: a hold of this version runs.
/// After an error a part of the line may stand there; what stood before stays.
pub fn put_hold(version: u32, out: &mut Vec<u8>) -> Result<(), AllocError>
    ensures line { OnOk result (out.new.items ≡ out.old.items ++ hold_line version) }
    ensures err { OnErr result (BeginsWith out.old.items out.new.items) }
{
    put_numbered(b"hold version ", u64::from(version), out)?;
    end(out)
}

/// Appends `watch T R from version V`: T watchers with R rounds each run, from this version on.
/// After an error a part of the line may stand there; what stood before stays.
pub fn put_watch(
    watchers: u32,
    rounds: u32,
    version: u32,
    out: &mut Vec<u8>,
) -> Result<(), AllocError>
    ensures line { OnOk result (out.new.items ≡ out.old.items ++ watch_line watchers rounds version) }
    ensures err { OnErr result (BeginsWith out.old.items out.new.items) }
{
    put_numbered(b"watch ", u64::from(watchers), out)?;
    put_value(u64::from(rounds), out)?;
    put_numbered(b" from version ", u64::from(version), out)?;
    end(out)
}

/// Appends what a report is of: a hold, or a round of a watcher.
/// After an error a part of it may stand there; what stood before stays.
fn put_round(round: Option<WatchRound>, out: &mut Vec<u8>) -> Result<(), AllocError>
    ensures line { OnOk result (out.new.items ≡ out.old.items ++ round_text round) }
    ensures err { OnErr result (BeginsWith out.old.items out.new.items) }
{
    match round {
        None => out.extend_from_slice(b"report hold"),
        Some(made) => {
            put_numbered(b"report watch ", u64::from(made.watcher), out)?;
            put_value(u64::from(made.round), out)
        }
    }
}

/// Appends `report hold version V covered C nopath P nolist L toodeep T`, or for a round of a watcher
/// `report watch T R version V covered ..`.
/// After an error a part of the line may stand there; what stood before stays.
#[tactic(auto, unfolding(crate::specs::Work::report_line))]
pub fn put_report(report: &RoundReport, out: &mut Vec<u8>) -> Result<(), AllocError>
    ensures line { OnOk result (out.new.items ≡ out.old.items ++ report_line report.now) }
    ensures err { OnErr result (BeginsWith out.old.items out.new.items) }
{
    put_round(report.round, out)?;
    put_numbered(b" version ", u64::from(report.version), out)?;
    put_counts(report.counts, out)?;
    end(out)
}

/// Appends `joined K`: background work was joined, and gave K reports.
/// After an error a part of the line may stand there; what stood before stays.
pub fn put_joined(count: u32, out: &mut Vec<u8>) -> Result<(), AllocError>
    ensures line { OnOk result (out.new.items ≡ out.old.items ++ joined_line count) }
    ensures err { OnErr result (BeginsWith out.old.items out.new.items) }
{
    put_numbered(b"joined ", u64::from(count), out)?;
    end(out)
}
