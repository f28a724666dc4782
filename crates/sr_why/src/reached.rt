//! How many nodes are still reached.
ghost use Rattle.std.specs.Prelude.{◌≢◌, ◌<◌, ◌≤◌, ◌↔◌, List, Bool, length, IsTrue};
ghost use Rattle.sr_model.specs.declared.link.TheConstants.{FAR as Far};
ghost use Rattle.sr_model.specs.Graph.{Graph as Topology};
ghost use Rattle.sr_model.specs.Walk.{IsRow};
ghost use Rattle.sr_why.specs.Reasons.{IsReachedCount};

use sr_model::{FAR, NodeNo};

/// Whether the node at this distance is reached, and isn't the source.
fn is_reached(node: usize, cell: u64, source: NodeNo) -> bool
    ensures { IsTrue result ↔ ((node ≢ source.0) × (cell < Far)) }
{
    node != source.0 as usize && cell < FAR
}

/// How many nodes but the source are reached, by the row of distances from the source.
pub(crate) fn reached_count(cells: &[u64], source: NodeNo) -> u32
    requires { length cells.now ≤ 256 }
    ensures { (g : Topology) (x : List Bool) → IsRow g x source.0 cells.now → IsReachedCount g x source.0 result }
{
    let mut count = 0;
    for (node, cell) in cells.iter().enumerate() {
        if is_reached(node, *cell, source) {
            count += 1;
        }
    }
    count
}
