//! `diff`: what differs between the repairs of two versions.
ghost use Rattle.sr_run.specs.Session.{TellsOf};
ghost use Rattle.sr_run.specs.Differences.{TellsDiff};
ghost use Rattle.sr_run.specs.Handlers.{Carries};

use crate::kept::{KeptVersion, last_version, version_numbered};
use crate::stop::{Stop, found};
use sr_base::Runtime;
use sr_diff::diff as differences;
use sr_print::{Refusal, put_diff};
use std::alloc::Global;

/// `diff V`: appends what differs between the repairs of the version of this number, which is the last one or the one before
/// it, and those of the last one.
pub(crate) fn tell_diff(
    rt: &impl Runtime,
    alloc: Global,
    previous: &KeptVersion,
    current: &KeptVersion,
    number: u32,
    out: &mut Vec<u8>,
) -> Result<(), Stop>
    ensures { Carries (TellsOf (TellsDiff number previous.now) current.now) out.old.items out.new.items result }
{
    let version = found!(last_version(current));
    let old = match version_numbered(previous, version, number) {
        Some(old) => old,
        None => return Err(Stop::Refused(Refusal::NoSuchVersion { version: number })),
    };
    let diff = differences(rt, alloc, old, version)?;
    put_diff(old.number(), old.net(), version.net(), &diff, out)?;
    Ok(())
}
