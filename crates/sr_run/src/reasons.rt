//! Why a failure has no repair in the last version: `why`.
ghost use Rattle.sr_run.specs.Session.{TellsOf};
ghost use Rattle.sr_run.specs.Reasons.{TellsReason};
ghost use Rattle.sr_run.specs.Handlers.{Carries, CountsQuestion};

use crate::kept::{KeptVersion, last_version};
use crate::names::find_affected;
use crate::stop::{Stop, found};
use sr_print::put_reason;
use sr_script::RepairName;
use sr_spf::Steps;
use sr_why::why;
use std::alloc::Global;
use std::sync::ledger::Ledger;

/// `why KIND A B n D`: appends why the failure has no repair for the destination, or that it has one. At most one search
/// is counted, and none where the line is refused.
pub(crate) fn reason<L: Ledger>(
    alloc: Global,
    current: &KeptVersion,
    repair: &RepairName,
    steps: &mut Steps<L>,
    out: &mut Vec<u8>,
) -> Result<(), Stop>
    ensures told { Carries (TellsOf (TellsReason repair.now) current.now) out.old.items out.new.items result }
    ensures searches { CountsQuestion steps.old steps.new result }
{
    let version = found!(last_version(current));
    let failure = found!(find_affected(version, repair));
    match why(alloc, version, failure.case, failure.destination, steps)? {
        Some(reason) => Ok(put_reason(version.net(), &reason, out)?),
        None => unreachable!(),
    }
}
