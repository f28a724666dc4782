//! The audit of the last version as a whole, and all repairs of a failure: `audit by`, `audit labels`, `repair` without a
//! destination, and `fails node`.
ghost use Rattle.sr_run.specs.Session.{TellsOf};
ghost use Rattle.sr_run.specs.Insight.{TellsCaseRepairs, TellsCoverage, TellsNodeRepairs, TellsStacks};
ghost use Rattle.sr_run.specs.Handlers.{Carries};

use crate::audits::put_audit_counts;
use crate::kept::{KeptVersion, last_version};
use crate::names::{find_link, find_node};
use crate::stop::{Stop, found};
use sr_audit::counts;
use sr_base::Runtime;
use sr_coverage::{coverage, groups_add_up, stack_counts};
use sr_insight::Grouping;
use sr_listing::{Wanted, put_wanted};
use sr_model::{Case, Kind, SystemId};
use sr_print::{put_coverage, put_stacks};
use sr_script::LinkName;
use std::alloc::Global;

/// `audit by GROUPS`: appends the groups of the last version's audit, and how many answers of each sort it has.
pub(crate) fn audit_by(
    rt: &impl Runtime,
    alloc: Global,
    current: &KeptVersion,
    grouping: Grouping,
    out: &mut Vec<u8>,
) -> Result<(), Stop>
    ensures { Carries (TellsOf (TellsCoverage grouping) current.now) out.old.items out.new.items result }
{
    let version = found!(last_version(current));
    groups_add_up();
    let groups = coverage(rt, alloc, version, grouping)?;
    put_coverage(version.net(), grouping, &groups, out)?;
    put_audit_counts(version.number(), counts(version), out)?;
    Ok(())
}

/// `audit labels`: appends how many repairs of the last version push how many labels, and how many answers of each sort
/// its audit has.
pub(crate) fn audit_labels(
    rt: &impl Runtime,
    alloc: Global,
    current: &KeptVersion,
    out: &mut Vec<u8>,
) -> Result<(), Stop>
    ensures { Carries (TellsOf TellsStacks current.now) out.old.items out.new.items result }
{
    let version = found!(last_version(current));
    let stacks = stack_counts(rt, alloc, version)?;
    put_stacks(&stacks, out)?;
    put_audit_counts(version.number(), counts(version), out)?;
    Ok(())
}

/// `repair KIND A B n`: appends the answers of the failure for all destinations that it affects.
pub(crate) fn repair_case(
    alloc: Global,
    current: &KeptVersion,
    kind: Kind,
    name: &LinkName,
    out: &mut Vec<u8>,
) -> Result<(), Stop>
    ensures { Carries (TellsOf (TellsCaseRepairs kind name.now) current.now) out.old.items out.new.items result }
{
    let version = found!(last_version(current));
    let link = found!(find_link(version, name));
    put_wanted(alloc, version, Wanted::OfCase(Case { kind, link }), out)?;
    Ok(())
}

/// `fails node F`: appends the answers of all node cases in which the node fails.
pub(crate) fn fails_node(
    alloc: Global,
    current: &KeptVersion,
    system: SystemId,
    out: &mut Vec<u8>,
) -> Result<(), Stop>
    ensures { Carries (TellsOf (TellsNodeRepairs system) current.now) out.old.items out.new.items result }
{
    let version = found!(last_version(current));
    let node = found!(find_node(version, system));
    put_wanted(alloc, version, Wanted::OfNode(node), out)?;
    Ok(())
}
