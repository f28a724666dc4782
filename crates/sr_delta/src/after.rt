//! Whether changed links are idle after a failure.
ghost use Rattle.std.specs.Prelude.{◌↔◌, ◌<◌, length, IsTrue};
ghost use Rattle.sr_model.specs.Case.{IsCase};
ghost use Rattle.sr_delta.specs.Changes.{AreWithin};
ghost use Rattle.sr_delta.specs.Idle.{IsIdleOrFailed, AreIdleOrFailed};

use crate::change::Change;
use crate::pairs::is_of_failing_pair;
use crate::stays::is_idle;
use sr_graph::Graph;
use sr_model::Case;

/// Whether the changed link is idle for the distances, or of a failed pair. Most are idle, which costs less to tell.
fn is_idle_or_failed(graph: &Graph, case: Case, cells: &[u64], change: &Change) -> bool
    requires case { IsCase graph.now case }
    requires from { change.now.from.0 < length cells.now }
    requires to { change.now.to.0 < length cells.now }
    ensures { IsTrue result ↔ IsIdleOrFailed graph.now case cells.now change.now }
{
    is_idle(cells, change) || is_of_failing_pair(graph, case, &change.key)
}

/// Whether each changed link that isn't of a failed pair is idle for the distances.
pub(crate) fn are_idle_or_failed(graph: &Graph, case: Case, cells: &[u64], links: &[Change]) -> bool
    requires case { IsCase graph.now case }
    requires within { AreWithin (length cells.now) links.now }
    ensures { IsTrue result ↔ AreIdleOrFailed graph.now case cells.now links.now }
{
    for n in 0..links.len() {
        if !is_idle_or_failed(graph, case, cells, &links[n]) {
            return false;
        }
    }
    true
}
