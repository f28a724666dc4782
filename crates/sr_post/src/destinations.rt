//! The destinations that a failure affects.
ghost use Rattle.std.specs.Prelude.{ℕ, ◌<◌, ◌↔◌, IsTrue};
ghost use Rattle.sr_lanes.specs.Bits.{is_in};
ghost use Rattle.sr_model.specs.Graph.{node_count};
ghost use Rattle.sr_model.specs.Case.{IsCase, IsAffected};
ghost use Rattle.sr_spf.specs.Trees.{AreTrees};

use sr_labels::Net;
use sr_lanes::NodeBits;
use sr_model::{Case, Kind, NodeNo};
use sr_spf::Trees;

/// The destinations that are affected in the case: of the nodes towards which the protected link is a next hop, those that
/// have a node index and aren't the source nor a node that fails (this project's rule).
pub fn affected_set(net: &Net, trees: &Trees, case: Case) -> NodeBits
    requires trees { AreTrees net.now.graph trees.now }
    requires case { IsCase net.now.graph case }
    ensures { (v : ℕ) → IsTrue (is_in result v) ↔ IsAffected net.now case v }
{
    let _count = net.graph().node_count();
    let protected = net.graph().edge(case.link);
    let carried = trees.carried(case.link).and(net.indexed());
    let others = carried.without(protected.from.0 as usize);
    match case.kind {
        Kind::Node => others.without(protected.to.0 as usize),
        Kind::Link | Kind::Risk => others,
    }
}

/// Whether the destination is affected in the case.
pub fn affected(net: &Net, trees: &Trees, case: Case, d: NodeNo) -> bool
    requires trees { AreTrees net.now.graph trees.now }
    requires case { IsCase net.now.graph case }
    requires d { d.0 < node_count net.now.graph }
    ensures { IsTrue result ↔ IsAffected net.now case d.0 }
{
    let _count = net.graph().node_count();
    affected_set(net, trees, case).has(d.0 as usize)
}
