//! What is made of a net whose distances are known: its nodes and links by their labels, and the answers of all cases.
ghost use Rattle.std.specs.Prelude.{◌≡◌, ℕ, ◌+◌, IfOk};
ghost use Rattle.sr_fib.specs.Tables.{AreSids};
ghost use Rattle.sr_repair.specs.Answers.{case_count, AreAllFound};
ghost use Rattle.sr_repair.specs.Work.{IsWithinCases};

use crate::answers::{Found, all_kept};
use crate::passes::all_passed;
use crate::setting::Setting;
use sr_fib::Sids;
use sr_spf::Steps;
use std::alloc::{AllocError, Global};
use std::sync::ledger::Ledger;
use std::thread::Threads;

/// The nodes and links of a net by their labels, and the records of all cases, in order of slot.
#[derive(Drop)]
pub(crate) struct Made {
    pub(crate) sids: Sids,
    pub(crate) found: Vec<Found>,
}

/// The nodes and links of the net by their labels, and the records of all cases, which are split among threads where there
/// are any. At most one search is counted for each case, and none for a case of the version before that is steady.
pub(crate) fn made_of<L: Ledger>(
    rt: &(impl Threads + Sync),
    alloc: Global,
    setting: &Setting<'_>,
    steps: &mut Steps<L>,
) -> Result<Made, AllocError>
    ensures sids { IfOk result (λ made. AreSids setting.now.net made.sids) }
    ensures found { IfOk result (λ made.
        AreAllFound setting.now.net (case_count setting.now.net.graph) made.found.items) }
    ensures searches { (w : ℕ) × (steps.new ≡ steps.old + w) × IsWithinCases setting.now.former setting.now.net w }
{
    let sids = Sids::build(alloc, setting.net)?;
    let passed = all_passed(rt, alloc, setting)?;
    let found = all_kept(alloc, passed, steps)?;
    Ok(Made { sids, found })
}
