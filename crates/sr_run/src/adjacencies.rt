//! What becomes of packets under an adjacency label in a version: `adjrepair` and `adjbackup`.
ghost use Rattle.std.specs.Prelude.{◌<◌, IfOk, IfSome};
ghost use Rattle.sr_model.specs.Graph.{link_count};
ghost use Rattle.sr_domain.specs.Net.{IsNetOf};
ghost use Rattle.sr_run.specs.Session.{TellsOf};
ghost use Rattle.sr_run.specs.Failures.{IsActiveOf, TellsAdjBackup, TellsAdjRepair};
ghost use Rattle.sr_run.specs.Handlers.{Carries};

use crate::kept::{KeptVersion, last_version};
use crate::names::find_link;
use crate::stop::{Stop, found};
use sr_adjprot::{AdjAnswer, adj_repair, backup, eligible};
use sr_lsdb::Facts;
use sr_model::LinkNo;
use sr_print::{put_adjbackup, put_adjrepair};
use sr_repair::Version;
use sr_script::LinkName;
use std::alloc::{AllocError, Global};

/// What is done with a packet under the label of the link, by the facts of which the version has the net.
fn active_answer<'a>(
    alloc: Global,
    facts: &Facts,
    version: &'a Version,
    link: LinkNo,
) -> Result<AdjAnswer<'a>, AllocError>
    requires facts { IsNetOf facts.now version.now.net }
    requires link { link.0 < link_count version.now.net.graph }
    ensures { IfOk result (IsActiveOf facts.now version.now.net link) }
{
    let tests = eligible(alloc, facts, version.net())?;
    adj_repair(alloc, version, &tests, link)
}

/// `adjrepair A B n`: appends what the router at the beginning of the link does with a packet under the link's adjacency
/// label when the link fails. Whether the label is eligible is told by the facts, of which the version has the net.
pub(crate) fn adjrepair(
    alloc: Global,
    facts: &Facts,
    current: &KeptVersion,
    name: &LinkName,
    out: &mut Vec<u8>,
) -> Result<(), Stop>
    requires { IfSome current.now (λ version. IsNetOf facts.now version.net) }
    ensures { Carries (TellsOf (TellsAdjRepair name.now facts.now) current.now) out.old.items out.new.items result }
{
    let version = found!(last_version(current));
    let link = found!(find_link(version, name));
    let answer = active_answer(alloc, facts, version, link)?;
    put_adjrepair(version.net(), link, &answer, out)?;
    Ok(())
}

/// `adjbackup A B n`: appends the label that is announced for the link with the flag B beside the net's, and what the
/// router does with a packet under it when the link fails.
pub(crate) fn adjbackup(
    alloc: Global,
    facts: &Facts,
    current: &KeptVersion,
    name: &LinkName,
    out: &mut Vec<u8>,
) -> Result<(), Stop>
    requires { IfSome current.now (λ version. IsNetOf facts.now version.net) }
    ensures { Carries (TellsOf (TellsAdjBackup name.now facts.now) current.now) out.old.items out.new.items result }
{
    let version = found!(last_version(current));
    let named = found!(find_link(version, name));
    let found = backup(alloc, facts, version, named)?;
    put_adjbackup(version.net(), named, &found, out)?;
    Ok(())
}
