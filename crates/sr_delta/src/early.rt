//! What costs least to tell of a case that may be steady.
ghost use Rattle.std.specs.Prelude.{◌≡◌, List, Bool, true, IsTrue};
ghost use Rattle.sr_model.specs.Graph.{node_count};
ghost use Rattle.sr_model.specs.Label.{Net as Labelled};
ghost use Rattle.sr_model.specs.Walk.{IsRow};
ghost use Rattle.sr_model.specs.Case.{IsCase, IsFailedSet, source_of};
ghost use Rattle.sr_laws.specs.Steady.{IsSteadyCase};
ghost use Rattle.sr_delta.specs.Changes.{AreChanges};

use crate::after::are_idle_or_failed;
use crate::differences::Changes;
use sr_labels::Net;
use sr_model::Case;

/// Whether the old case has what costs least to tell of one that is steady: changed links are idle after the failure.
/// `net` is the old net, and `cells` are the distances from the source without the links that fail, by number of node.
/// Where this is false the case isn't steady.
pub fn may_stay(changes: &Changes, net: &Net, case: Case, cells: &[u64]) -> bool
    requires nodes { changes.now.nodes ≡ node_count net.now.graph }
    requires case { IsCase net.now.graph case }
    requires row { (x : List Bool) → IsFailedSet net.now.graph case x
        → IsRow net.now.graph x (source_of net.now.graph case) cells.now }
    ensures { (m : Labelled) → AreChanges net.now m changes.now → changes.now.same ≡ true
        → IsSteadyCase net.now m case → IsTrue result }
{
    are_idle_or_failed(net.graph(), case, cells, changes.links())
}
