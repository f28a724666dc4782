//! How many answers of a version are of each sort.
ghost use Rattle.std.specs.Prelude.{◌≡◌, ◌<◌};
ghost use Rattle.sr_repair.specs.Answers.{case_count};
ghost use Rattle.sr_audit.specs.Counted.{no_counts, counts_sum, AreCounts, AreCountsAt, AreAuditCounts};

use sr_model::Counts;
use sr_repair::{Version, case_at, case_count};

/// Nothing is counted.
pub fn no_counts() -> Counts
    ensures { result ≡ no_counts }
{
    Counts {
        covered: 0,
        nopath: 0,
        nolist: 0,
        toodeep: 0,
    }
}

/// How many answers of the case at this place are of each sort.
pub fn counts_at(version: &Version, place: u32) -> Counts
    requires { place < case_count version.now.net.graph }
    ensures { AreCountsAt version.now.net place result }
{
    let case = case_at(version.net().graph(), place);
    version.answers(case).counts()
}

/// Both counts together, sort by sort.
pub fn counts_sum(so_far: Counts, more: Counts) -> Counts
    requires { AreCounts (counts_sum so_far more) }
    ensures { result ≡ counts_sum so_far more }
{
    Counts {
        covered: so_far.covered + more.covered,
        nopath: so_far.nopath + more.nopath,
        nolist: so_far.nolist + more.nolist,
        toodeep: so_far.toodeep + more.toodeep,
    }
}

/// How many answers of the version's audit are lists, no path, no list and too deep. What is listed in each case is
/// counted already, so the cases alone are gone through where no list is too deep, and no memory is needed.
pub fn counts(version: &Version) -> Counts
    ensures { AreAuditCounts version.now.net result }
{
    let count = case_count(version.net().graph());
    let mut so_far = no_counts();
    for place in 0..count {
        so_far = counts_sum(so_far, counts_at(version, place));
    }
    so_far
}
