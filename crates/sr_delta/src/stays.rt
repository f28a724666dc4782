//! Whether a tree stays.
ghost use Rattle.std.specs.Prelude.{◌≡◌, ◌↔◌, ◌<◌, length, IsTrue};
ghost use Rattle.sr_model.specs.declared.link.TheConstants.{FAR as Far};
ghost use Rattle.sr_model.specs.Label.{Net};
ghost use Rattle.sr_model.specs.Stay.{IsKeptTree};
ghost use Rattle.sr_spf.specs.Trees.{tree_count, AreTrees};
ghost use Rattle.sr_delta.specs.Changes.{AreWithin, AreChanges};
ghost use Rattle.sr_delta.specs.Idle.{IsDearerBy, IsIdleChange, AreAllIdle};

use crate::change::Change;
use crate::differences::Changes;
use sr_model::{FAR, NodeNo};
use sr_spf::Trees;

/// Whether a link of this metric, if it has one, leads from the first distance to none up to the second.
fn is_dearer_by(from: u64, to: u64, metric: Option<u32>) -> bool
    requires { from < Far }
    ensures { IsTrue result ↔ IsDearerBy from to metric }
{
    match metric {
        None => true,
        Some(metric) => to < from + metric as u64,
    }
}

/// Whether the changed link is idle for the distances.
pub(crate) fn is_idle(cells: &[u64], change: &Change) -> bool
    requires from { change.now.from.0 < length cells.now }
    requires to { change.now.to.0 < length cells.now }
    ensures { IsTrue result ↔ IsIdleChange cells.now change.now }
{
    let from = cells[change.from.0 as usize];
    let to = cells[change.to.0 as usize];
    if from >= FAR {
        return true;
    }
    to < FAR && is_dearer_by(from, to, change.before) && is_dearer_by(from, to, change.after)
}

/// Whether each of the changed links is idle for the distances.
fn are_all_idle(cells: &[u64], links: &[Change]) -> bool
    requires { AreWithin (length cells.now) links.now }
    ensures { IsTrue result ↔ AreAllIdle cells.now links.now }
{
    for n in 0..links.len() {
        if !is_idle(cells, &links[n]) {
            return false;
        }
    }
    true
}

/// Whether the tree of the node stays: the nodes are the same in both nets, and each changed link is idle for the old
/// distances from the node. `old` are the trees of the old net.
pub fn tree_stays(changes: &Changes, old: &Trees, u: NodeNo) -> bool
    requires nodes { changes.now.nodes ≡ tree_count old.now }
    requires u { u.0 < tree_count old.now }
    ensures { (n m : Net) → AreChanges n m changes.now → AreTrees n.graph old.now
        → IsTrue result ↔ IsKeptTree n.graph m.graph u.0 }
{
    changes.same_nodes() && are_all_idle(old.cells(u), changes.links())
}
