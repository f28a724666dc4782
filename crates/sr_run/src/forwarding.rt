//! Questions about forwarding in the last version: `label` and `walk A D K`.
ghost use Rattle.std.specs.Prelude.{◌<◌, ◌≡◌, true, is_some};
ghost use Rattle.sr_model.specs.Graph.{node_count};
ghost use Rattle.sr_model.specs.Label.{labels_at};
ghost use Rattle.sr_run.specs.Session.{TellsOf};
ghost use Rattle.sr_run.specs.Questions.{TellsLookup, TellsWalk, TellsWalkOf};
ghost use Rattle.sr_run.specs.Handlers.{Carries};

use crate::kept::{KeptVersion, last_version};
use crate::names::{EndNodes, find_ends, find_node};
use crate::stop::{Stop, found};
use crate::version::{forwarded, look_up};
use sr_model::SystemId;
use sr_print::{Refusal, put_label, put_walk};
use sr_repair::Version;
use sr_script::EndNames;
use std::alloc::Global;

/// `label A X`: appends what label X does at A.
pub(crate) fn label(
    current: &KeptVersion,
    system: SystemId,
    label: u32,
    out: &mut Vec<u8>,
) -> Result<(), Stop>
    ensures { Carries (TellsOf (TellsLookup system label) current.now) out.old.items out.new.items result }
{
    let version = found!(last_version(current));
    let node = found!(find_node(version, system));
    put_label(version.net(), look_up(version, node, label), out)?;
    Ok(())
}

/// Appends the walk of a packet between two nodes, by a choice number.
fn put_walk_of(
    alloc: Global,
    version: &Version,
    nodes: EndNodes,
    choice: u32,
    out: &mut Vec<u8>,
) -> Result<(), Stop>
    requires from { nodes.from.0 < node_count version.now.net.graph }
    requires to { nodes.to.0 < node_count version.now.net.graph }
    requires index { is_some (labels_at version.now.net nodes.to.0).index ≡ true }
    ensures { Carries (TellsWalkOf version.now.net nodes.from.0 nodes.to.0 choice) out.old.items out.new.items result }
{
    match forwarded(alloc, version, nodes.from, nodes.to, choice)? {
        Some(walk) => Ok(put_walk(version.net(), nodes.from, Some(&walk.links), out)?),
        None => Ok(put_walk(version.net(), nodes.from, None, out)?),
    }
}

/// `walk A D K`: appends the walk of a packet from A under D's label, by choice number K.
pub(crate) fn walk_packet(
    alloc: Global,
    current: &KeptVersion,
    ends: &EndNames,
    choice: u32,
    out: &mut Vec<u8>,
) -> Result<(), Stop>
    ensures { Carries (TellsOf (TellsWalk ends.now choice) current.now) out.old.items out.new.items result }
{
    let version = found!(last_version(current));
    let nodes = found!(find_ends(version, ends));
    if version.net().labels(nodes.to).index().is_none() {
        return Err(Stop::Refused(Refusal::NoDestination { node: ends.to }));
    }
    put_walk_of(alloc, version, nodes, choice, out)
}
